// One filtering call on buffers that hold junk.

use answers::Filtered;
use filter_answers::Limits;
use refusals::Refusal;
use room::Lent;
use std::io;
use trial::outcome;

// Which call is made on some bytes: on a file's, with these limits, or on the samples of a plane with these sides.
#[derive(Clone, Copy)]
pub enum Asked {
    File(Limits),
    Plane(usize, usize),
}

// A plane is a picture of one channel, whose output is as long as its samples.
fn as_file(width: usize, height: usize, len: usize, tolerance: u64) -> Filtered {
    Filtered {
        width,
        height,
        channels: 1,
        tolerance,
        len,
    }
}

fn ask(
    asked: Asked,
    recipe: &[u8],
    bytes: &[u8],
    work: &mut [u8],
    rows: &mut [i32],
    sums: &mut [u32],
    out: &mut [u8],
) -> Result<Filtered, Refusal> {
    match asked {
        Asked::File(limits) => {
            file_filter::filter_file(recipe, bytes, limits, work, rows, sums, out)
        }
        Asked::Plane(w, h) => {
            let tolerance = plane_filter::filter_plane(recipe, w, h, bytes, work, rows, sums, out)?;
            Ok(as_file(w, h, bytes.len(), tolerance))
        }
    }
}

fn call_on(
    rt: &impl Print,
    asked: Asked,
    recipe: &[u8],
    bytes: &[u8],
    wanted: &[u8],
    work: &mut [u8],
    rows: &mut [i32],
    sums: &mut [u32],
    out: &mut [u8],
) -> io::Result<()> {
    junk::fill(work, rows, sums, out);
    let answer = ask(asked, recipe, bytes, work, rows, sums, out);
    outcome::show(rt, answer, wanted, work, rows, sums, out)
}

// One call, its answer and what it left. No more is lent than the program of document 01 lends, but for row values: as many as 8,192 by 2 needs. For more the line lacks
// an answer.
pub fn call(
    rt: &impl Print,
    lent: Lent,
    asked: Asked,
    recipe: &[u8],
    bytes: &[u8],
    wanted: &[u8],
) -> io::Result<()> {
    let mut work = [0u8; 32768];
    let mut rows = [0i32; 262144];
    let mut sums = [0u32; 16384];
    let mut out = [0u8; 65536];
    if let Some(work) = work.get_mut(..lent.works)
        && let Some(rows) = rows.get_mut(..lent.rows)
        && let Some(sums) = sums.get_mut(..lent.sums)
        && let Some(out) = out.get_mut(..lent.out)
    {
        return call_on(rt, asked, recipe, bytes, wanted, work, rows, sums, out);
    }
    Ok(())
}
