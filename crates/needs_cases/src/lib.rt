// What a folder's still and recipe need, printed.
#![tactic(auto)]

use answers::Needs;
use refusals::Refusal;
use std::io;
use std::rt::Files;
use trial::files;

fn show(rt: &impl Print, answer: Result<Needs, Refusal>) -> io::Result<()> {
    match answer {
        Err(refusal) => println!(rt; "{refusal}"),
        Ok(
            Needs {
                works,
                rows,
                sums,
                out,
                tolerance,
            },
        ) => println!(rt; "work {works} rows {rows} sums {sums} out {out} T {tolerance}"),
    }
}

// The answer to a folder's files.
pub fn run(rt: &(impl Files + Print), folder: &[u8]) -> io::Result<()> {
    let mut recipe = [0u8; 4096];
    let mut still = [0u8; 65536];
    let recipe = files::recipe(rt, folder, &mut recipe);
    let still = files::still(rt, folder, 0, &mut still);
    show(rt, buffer_needs::needs(recipe, still))
}
