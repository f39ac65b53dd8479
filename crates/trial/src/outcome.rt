// What a filtering call answered, and what it left in buffers that held junk.

use answers::Filtered;
use refusals::Refusal;
use std::io;

// Whether the output is what is wanted.
fn same(rt: &impl Print, holds: bool) -> io::Result<()> {
    rt.print(if holds { " same" } else { " DIFFERS" })
}

// Whether what was to stay has stayed.
fn kept(rt: &impl Print, holds: bool) -> io::Result<()> {
    rt.print(if holds { " kept" } else { " ALTERED" })
}

// The picture's size and T, and whether the output is as wanted and its tail has stayed. Where no output is there to compare with, its length is shown.
fn filtered(rt: &impl Print, picture: Filtered, wanted: &[u8], out: &[u8]) -> io::Result<()> {
    let Filtered {
        width,
        height,
        channels,
        tolerance,
        len,
    } = picture;
    print!(rt; "ok {width} {height} {channels} {tolerance}")?;
    if wanted.is_empty() {
        print!(rt; " {len}")?;
    } else {
        same(rt, len == wanted.len() && out.starts_with(wanted))?;
    }
    kept(rt, junk::kept_from(out, len))
}

// After a refusal all four buffers stay.
pub fn show(
    rt: &impl Print,
    answer: Result<Filtered, Refusal>,
    wanted: &[u8],
    work: &[u8],
    rows: &[i32],
    sums: &[u32],
    out: &[u8],
) -> io::Result<()> {
    match answer {
        Err(refusal) => {
            rt.print(refusal)?;
            kept(rt, junk::all_kept(work, rows, sums, out))?;
        }
        Ok(picture) => filtered(rt, picture, wanted, out)?,
    }
    rt.println("")
}
