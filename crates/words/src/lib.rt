// The words of an argument or of a line, with blanks between them.
#![tactic(auto)]

ghost use Rattle.std.specs.Prelude.{◌≡◌, ◌-◌, ◌≤◌, length, drop};

// The word after k blanks: nothing where there are fewer.
pub fn word(text: &[u8], k: usize) -> &[u8]
    ensures { length result.now ≤ length text.now }
{
    text.split(|b| *b == b' ').nth(k).unwrap_or(&[])
}

// The first letter of that word, or 0.
pub fn letter(text: &[u8], k: usize) -> u8 {
    word(text, k).first().copied().unwrap_or(0)
}

// All that stands after k blanks: nothing where there are fewer.
pub fn after(text: &[u8], k: usize) -> &[u8]
    ensures within { length result.now ≤ length text.now }
    ensures back { result.now ≡ drop (length text.now - length result.now) text.now }
{
    text.splitn(k.saturating_add(1), |b| *b == b' ')
        .nth(k)
        .unwrap_or(&[])
}

// A number of up to 19 digits with one more.
fn with_digit(value: usize, digit: u8) -> usize {
    value % 1000000000000000000 * 10 + digit as usize
}

// The number that stands after k blanks, or 0. Other bytes than digits, as the LF of a line, are passed over.
pub fn number(text: &[u8], k: usize) -> usize {
    let mut value = 0;
    for b in word(text, k) {
        if let b'0'..=b'9' = *b {
            value = with_digit(value, *b - b'0');
        }
    }
    value
}
