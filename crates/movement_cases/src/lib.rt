// The movement between the two stills of a folder.
#![tactic(auto)]

use std::io;
use std::rt::Files;
use trial::files;

// How long the lent buffers are: work bytes, row values, sums, and both outputs.
#[derive(Clone, Copy)]
struct Lengths {
    works: usize,
    rows: usize,
    sums: usize,
    out1: usize,
    out2: usize,
}

// One call on buffers that hold something already, and what it left in the outputs. More than there is here is not lent: the line then lacks an answer.
fn call(
    rt: &impl Print,
    lent: Lengths,
    limit: u64,
    recipe1: &[u8],
    still1: &[u8],
    recipe2: &[u8],
    still2: &[u8],
) -> io::Result<()> {
    let mut work = [170u8; 32768];
    let mut rows = [1717986918i32; 16384];
    let mut sums = [2863311530u32; 65536];
    let mut out1 = [170u8; 65536];
    let mut out2 = [85u8; 65536];
    if let Some(work) = work.get_mut(..lent.works)
        && let Some(rows) = rows.get_mut(..lent.rows)
        && let Some(sums) = sums.get_mut(..lent.sums)
        && let Some(part1) = out1.get_mut(..lent.out1)
        && let Some(part2) = out2.get_mut(..lent.out2)
    {
        let answer = movement_filter::count_movement(
            recipe1, still1, recipe2, still2, limit, work, rows, sums, part1, part2,
        );
        return movement_lines::show(rt, answer, &out1, &out2);
    }
    Ok(())
}

fn lent(text: &[u8]) -> Lengths {
    Lengths {
        works: words::number(text, 3),
        rows: words::number(text, 4),
        sums: words::number(text, 5),
        out1: words::number(text, 6),
        out2: words::number(text, 7),
    }
}

// The call on a folder's files. The words of its argument: folder, `movement`, limit, then how many work bytes, row values, sums and bytes of each output are lent.
pub fn run(rt: &(impl Files + Print), text: &[u8], folder: &[u8]) -> io::Result<()> {
    let mut recipe1 = [0u8; 4096];
    let mut still1 = [0u8; 65536];
    let mut recipe2 = [0u8; 4096];
    let mut still2 = [0u8; 65536];
    let recipe1 = files::load(rt, folder, b"recipe1", 0, &mut recipe1);
    let still1 = files::load(rt, folder, b"still1", 0, &mut still1);
    let recipe2 = files::load(rt, folder, b"recipe2", 0, &mut recipe2);
    let still2 = files::load(rt, folder, b"still2", 0, &mut still2);
    let limit = words::number(text, 2) as u64;
    call(rt, lent(text), limit, recipe1, still1, recipe2, still2)
}
