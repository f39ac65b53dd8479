// The verdict on a folder's received still.
#![tactic(auto)]

use std::io;
use std::rt::Files;
use trial::files;

// One call on work bytes that hold something already. More than there is here is not lent: the line then lacks an answer.
fn call(
    rt: &impl Print,
    lent: usize,
    distance: u64,
    recipe: &[u8],
    raw: &[u8],
    received: &[u8],
) -> io::Result<()> {
    let mut work = [170u8; 65536];
    if let Some(part) = work.get_mut(..lent) {
        let answer = verdicts::verdict(recipe, raw, received, distance, part);
        return verdict_lines::show(rt, answer, &work);
    }
    Ok(())
}

// The call on a folder's files. The words of its argument: folder, `verdict`, distance, and how many work bytes are lent.
pub fn run(rt: &(impl Files + Print), text: &[u8], folder: &[u8]) -> io::Result<()> {
    let mut recipe = [0u8; 4096];
    let mut raw = [0u8; 65536];
    let mut received = [0u8; 65536];
    let recipe = files::recipe(rt, folder, &mut recipe);
    let raw = files::load(rt, folder, b"raw", 0, &mut raw);
    let received = files::load(rt, folder, b"received", 0, &mut received);
    let distance = words::number(text, 2) as u64;
    call(rt, words::number(text, 3), distance, recipe, raw, received)
}
