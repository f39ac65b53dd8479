// Reads the header of a still: three numbers with separators before them, and one whitespace byte.
#![tactic(auto)]

ghost use Rattle.std.specs.Prelude.{◌≡◌};
ghost use Rattle.header_reader.specs.Header.{field, header};
ghost use Rattle.header_reader.specs.Answers.{field_answer, header_answer};

// A number with separators before it: its value, cut, and how many bytes both take.
#[derive(Clone, Copy)]
pub struct Field {
    pub value: usize,
    pub len: usize,
}

// Separators and then a number.
#[tactic(auto, using(crate::proofs::HeaderLaws::inside), unfolding(crate::specs::Answers::field_answer, crate::specs::Header::field, crate::specs::Header::field_after))]
fn read_field(part: &[u8]) -> Option<Field>
    ensures { result ≡ field_answer (field part.now) }
{
    let gap = text::separators(part);
    if gap == 0 {
        return None;
    }
    let n = text::number(&part[gap..]);
    if n.len == 0 {
        return None;
    }
    Some(Field {
        value: n.value,
        len: gap + n.len,
    })
}

// A header after the magic: its numbers, cut, and how many bytes it takes.
#[derive(Clone, Copy)]
pub struct Header {
    pub width: usize,
    pub height: usize,
    pub maximum: usize,
    pub len: usize,
}

// Three fields and the one whitespace byte.
#[tactic(auto, using(crate::proofs::HeaderLaws::by_field), unfolding(text::specs::Text::is_space))]
pub fn read_header(part: &[u8]) -> Option<Header>
    ensures { result ≡ header_answer (header part.now) }
{
    let width = read_field(part)?;
    let height = read_field(&part[width.len..])?;
    let at = width.len + height.len;
    let maximum = read_field(&part[at..])?;
    let end = at + maximum.len;
    let behind = part.get(end)?;
    if !text::is_space(*behind) {
        return None;
    }
    Some(Header {
        width: width.value,
        height: height.value,
        maximum: maximum.value,
        len: end + 1,
    })
}
