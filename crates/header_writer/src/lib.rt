// The header of a still that is written.
#![tactic(auto)]

ghost use Rattle.std.specs.Prelude.{◌≡◌, [], ◌∷◌, ◌++◌, ◌+◌, ◌≤◌, ◌<◌, length, drop};
ghost use Rattle.header_writer.specs.Heading.{Sized, decimal, magic_line, header_bytes};

use std::marker::Model;

// The longest header, of 8192 by 8192, has so many bytes.
const LONGEST: usize = 17;

// A header: so many bytes, at the front of an array.
#[derive(Clone, Copy)]
pub struct Head {
    pub bytes: [u8; LONGEST],
    pub len: usize,
}

impl Head {
    pub fn len(&self) -> usize
        ensures { result ≡ self.now.len }
    {
        self.len
    }
}

// The bytes of a header so far.
#[derive(Drop)]
struct HeadBuilder {
    bytes: [u8; LONGEST],
    len: usize,
}

impl Model for HeadBuilder {
    ghost use Rattle.std.specs.Prelude.{ℕ, ◌≤◌, List, take};

    ghost Value = { List ℕ };

    ghost view = { λ head. take head.len head.bytes };

    ghost invariant = { λ head. head.len ≤ 17 };
}

impl HeadBuilder {
    fn new() -> Self
        ensures { result ≡ [] }
    {
        HeadBuilder {
            bytes: [0; LONGEST],
            len: 0,
        }
    }

    // One byte more.
    fn push(&mut self, b: u8)
        requires { length self.old < 17 }
        ensures { self.new ≡ self.old ++ b ∷ [] }
    {
        self.bytes[self.len] = b;
        self.len += 1;
    }

    // Some bytes more.
    fn extend_from_slice(&mut self, more: &[u8])
        requires { length self.old + length more.now ≤ 17 }
        ensures { self.new ≡ self.old ++ more.now }
    {
        let end = self.len + more.len();
        buffers::copy_all(more, &mut self.bytes[self.len..end]);
        self.len = end;
    }

    // The decimal digits of a number more.
    fn push_number(&mut self, n: usize)
        requires { length self.old + length (decimal n) ≤ 17 }
        ensures { self.new ≡ self.old ++ decimal n }
    {
        if n >= 10 {
            self.push_number(n / 10);
        }
        self.push(b'0' + (n % 10) as u8);
    }

    // The header that these bytes are.
    fn build(&self) -> Head
        ensures { Sized result.bytes result.len self.now }
    {
        Head {
            bytes: self.bytes,
            len: self.len,
        }
    }
}

// Magic and LF.
#[tactic(auto, unfolding(crate::specs::Heading::magic_line))]
fn magic(channels: usize) -> &'static [u8; 3]
    ensures { result.now ≡ magic_line channels }
{
    if channels == 1 { b"P5\n" } else { b"P6\n" }
}

// The header of a still.
#[tactic(auto, using(crate::proofs::HeadingLaws::decimal_few), unfolding(crate::specs::Heading::magic_line, crate::specs::Heading::header_bytes))]
pub fn header(width: usize, height: usize, channels: usize) -> Head
    requires { (width ≤ 8192) × (height ≤ 8192) }
    ensures { Sized result.bytes result.len (header_bytes width height channels) }
{
    let mut head = HeadBuilder::new();
    head.extend_from_slice(magic(channels));
    head.push_number(width);
    head.push(b' ');
    head.push_number(height);
    head.extend_from_slice(b"\n255\n");
    head.build()
}

// The header of a still into the front of out, giving its length.
pub fn put_header(width: usize, height: usize, channels: usize, out: &mut [u8]) -> usize
    requires { (width ≤ 8192) × (height ≤ 8192) × (length (header_bytes width height channels) ≤ length out.old) }
    ensures { (result ≡ length (header_bytes width height channels)) × (out.new ≡ header_bytes width height channels ++ drop result out.old) }
{
    let head = header(width, height, channels);
    buffers::copy_front(&head.bytes, out, head.len);
    head.len
}
