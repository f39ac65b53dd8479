// Prints what the calls on a background answer.
#![tactic(auto)]

ghost use Rattle.std.specs.Prelude.{◌≤◌, length};

use answers::{Held, Mean};
use refusals::Refusal;
use std::io;

const DIGITS: &[u8; 16] = b"0123456789abcdef";

// Up to 64 bytes as pairs of hexadecimal digits, in one write.
fn show_part(rt: &impl Print, part: &[u8]) -> io::Result<()>
    requires { length part.now ≤ 64 }
{
    let mut text = [0u8; 128];
    for i in 0..part.len() {
        text[2 * i] = DIGITS[usize::from(part[i] / 16)];
        text[2 * i + 1] = DIGITS[usize::from(part[i] % 16)];
    }
    rt.write_all(&text[..2 * part.len()])
}

// Bytes as pairs of hexadecimal digits.
fn show_hex(rt: &impl Print, bytes: &[u8]) -> io::Result<()> {
    for part in bytes.chunks(64) {
        show_part(rt, part)?;
    }
    Ok(())
}

// Prints what a change answers. What is held after it.
pub fn show_change(rt: &impl Print, answer: Result<Held, Refusal>, held: Held) -> io::Result<Held> {
    match answer {
        Err(refusal) => {
            rt.print(refusal)?;
            Ok(held)
        }
        Ok(now) => {
            rt.print("ok")?;
            Ok(now)
        }
    }
}

// Prints what a mean answers.
pub fn show_mean(
    rt: &impl Print,
    answer: Result<Option<Mean>, Refusal>,
    out: &[u8],
) -> io::Result<()> {
    match answer {
        Err(refusal) => rt.print(refusal),
        Ok(None) => rt.print("none"),
        Ok(Some(Mean { tolerance, len, .. })) => {
            print!(rt; "mean {tolerance} ")?;
            show_hex(rt, out.get(..len).unwrap_or(out))
        }
    }
}
