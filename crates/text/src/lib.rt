// The text of a header: whitespace, comments and separators, and decimal numbers of any length.
#![tactic(auto)]

ghost use Rattle.std.specs.Prelude.{◌≡◌, false, ◌+◌, ◌-◌, ◌*◌, ◌≤◌, min, length};
ghost use Rattle.text.specs.Text.{is_space, gap, digits, value};
ghost use Rattle.text.specs.Step.{step_of};

#[tactic(auto, unfolding(crate::specs::Text::is_space))]
pub fn is_space(b: u8) -> bool
    ensures { result ≡ is_space b }
{
    matches!(b, b' ' | b'\t' | b'\r' | b'\n')
}

// What a byte does to a run of separators: it ends it (`None`), or the run goes on, inside a comment or not.
#[tactic(auto, unfolding(crate::specs::Step::step_of))]
fn step_over(comment: bool, b: u8) -> Option<bool>
    ensures { result ≡ step_of comment b }
{
    match b {
        _ if comment => Some(b != b'\n'),
        _ if is_space(b) => Some(false),
        b'#' => Some(true),
        _ => None,
    }
}

// How many bytes of separators stand at the front.
#[tactic(auto, using(crate::proofs::TextLaws::gap_loop))]
pub fn separators(part: &[u8]) -> usize
    ensures { result ≡ gap false part.now }
{
    let mut comment = false;
    for (i, b) in part.iter().enumerate() {
        let Some(inside) = step_over(comment, *b) else {
            return i;
        };
        comment = inside;
    }
    part.len()
}

// Every number from here on is held as this one: past every side and maximum, and far from overflow.
pub const CUT: usize = 10000;

// The digits at the front: their number's value, cut, and how many there are.
#[derive(Clone, Copy)]
pub struct Decimal {
    pub value: usize,
    pub len: usize,
}

// A number with one digit more.
fn with_digit(value: usize, b: u8) -> usize
    requires { (value ≤ 10000) × (48 ≤ b) }
    ensures { result ≡ min (value * 10 + (b - 48)) 10000 }
{
    (value * 10 + usize::from(b - b'0')).min(CUT)
}

#[tactic(auto, using(crate::proofs::TextLaws::digits_loop), unfolding(crate::specs::Text::is_digit))]
pub fn number(part: &[u8]) -> Decimal
    ensures { (result.value ≡ min (value (digits part.now)) 10000) × (result.len ≡ length (digits part.now)) }
{
    let mut value = 0;
    for (len, b) in part.iter().enumerate() {
        if !b.is_ascii_digit() {
            return Decimal { value, len };
        }
        value = with_digit(value, *b);
    }
    Decimal {
        value,
        len: part.len(),
    }
}
