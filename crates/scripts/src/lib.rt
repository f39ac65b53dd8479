// Runs a script on a background, and prints the answer to each step. Steps are `add NUMBER T FILE`, `take NUMBER` and `mean LENGTH`. `lend BYTES NUMBERS` is no step: it
// says how much of 4,096 bytes and 4,096 numbers is lent from there on.
#![tactic(auto)]

ghost use Rattle.std.specs.Prelude.{◌≤◌};

use answers::Held;
use refusals::Refusal;
use std::io;
use std::rt::Files;
use trial::files;

// A number of 32 bits that stands after k blanks.
fn number(line: &[u8], k: usize) -> u32 {
    (words::number(line, k) % 4294967296) as u32
}

// A number that stands after k blanks, at most 4,096.
fn at_most(line: &[u8], k: usize) -> usize
    ensures { result ≤ 4096 }
{
    words::number(line, k).min(4096)
}

// The still of a file added.
fn add(
    rt: &impl Files,
    folder: &[u8],
    line: &[u8],
    held: Held,
    rasters: &mut [u8],
    labels: &mut [u32],
) -> Result<Held, Refusal> {
    let mut still = [0u8; 4096];
    let still = files::load(rt, folder, words::after(line, 3), 0, &mut still);
    background_additions::add_still(
        held,
        still,
        number(line, 1),
        number(line, 2),
        rasters,
        labels,
    )
}

// A mean with an output of as many bytes as its line says.
fn show_mean(
    rt: &impl Print,
    line: &[u8],
    held: Held,
    rasters: &[u8],
    labels: &[u32],
) -> io::Result<()> {
    let mut out = [0u8; 4096];
    let out = &mut out[..at_most(line, 1)];
    let answer = background_mean::mean_still(held, rasters, labels, out);
    script_answers::show_mean(rt, answer, out)
}

// A change or a mean, and what is held after it.
fn step(
    rt: &(impl Files + Print),
    folder: &[u8],
    line: &[u8],
    held: Held,
    rasters: &mut [u8],
    labels: &mut [u32],
) -> io::Result<Held> {
    let answer = match line.first() {
        Some(b'm') => {
            show_mean(rt, line, held, rasters, labels)?;
            return Ok(held);
        }
        Some(b'a') => add(rt, folder, line, held, rasters, labels),
        _ => background_removals::remove_still(held, number(line, 1), rasters, labels),
    };
    script_answers::show_change(rt, answer, held)
}

// The steps of a script, each on its own line.
pub fn run(rt: &(impl Files + Print), folder: &[u8], script: &[u8]) -> io::Result<()> {
    let mut rasters = [0u8; 4096];
    let mut labels = [0u32; 4096];
    let mut held = Held {
        count: 0,
        width: 0,
        height: 0,
        channels: 0,
    };
    let mut bytes = 0;
    let mut numbers = 0;
    for text in script.split_inclusive(|b| *b == b'\n') {
        let line = text.strip_suffix(b"\n").unwrap_or(text);
        if let Some(b'l') = line.first() {
            bytes = words::number(line, 1);
            numbers = words::number(line, 2);
        } else {
            rt.print("  ")?;
            let rasters = &mut rasters[..bytes.min(4096)];
            let labels = &mut labels[..numbers.min(4096)];
            held = step(rt, folder, line, held, rasters, labels)?;
            rt.println("")?;
        }
    }
    Ok(())
}
