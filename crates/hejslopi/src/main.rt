// Filters the file `still` by the file `recipe` into the file `out`, and prints `ok W H channels T`, or `no N` for a refusal.
#![tactic(auto)]

ghost use Rattle.program_filter.specs.Program.{Saves};

use answers::Filtered;
use refusals::Refusal;
use std::rt::Files;
use std::{fs, io};

// What a disk does with bytes is beyond any contract: so the caller has to show which bytes they are.
fn save(rt: &impl Files<File = fs::File>, recipe: &[u8], still: &[u8], bytes: &[u8]) -> bool
    requires { Saves recipe.now still.now bytes.now }
{
    disk::save(rt, bytes)
}

// `out` is opened only once the call has accepted.
fn filter(
    rt: &impl Files<File = fs::File>,
    recipe: &[u8],
    still: &[u8],
) -> Result<Filtered, Refusal> {
    let mut out = [0u8; 65536];
    let picture = program_filter::filter_still(recipe, still, &mut out)?;
    if save(rt, recipe, still, &out[..picture.len]) {
        Ok(picture)
    } else {
        Err(Refusal::FileUnread)
    }
}

// One byte more than a file may have tells that it is over.
fn run(rt: &impl Files<File = fs::File>) -> Result<Filtered, Refusal> {
    let mut still = [0u8; 65537];
    let mut recipe = [0u8; 4097];
    let s = disk::load(rt, b"still", &mut still);
    let r = disk::load(rt, b"recipe", &mut recipe);
    let (a, b) = disk_tests::tested(s, r)?;
    filter(rt, &recipe[..b], &still[..a])
}

// The line waits until `out` is written.
fn main(rt: HostRuntime) -> io::Result<()> {
    match run(&rt) {
        Err(refusal) => println!(rt; "{refusal}"),
        Ok(
            Filtered {
                width,
                height,
                channels,
                tolerance,
                ..
            },
        ) => println!(rt; "ok {width} {height} {channels} {tolerance}"),
    }
}
