// Makes the call that each argument describes on the files that it names, and prints what the call answers and leaves.
// `PATH still` reads a still, writes it and reads it again; `PATH recipe` reads a recipe. `PATH back LENT RECIPE` filters a still by a recipe that gives it back.
// `FOLDER file LENT` filters a folder's `still` by its `recipe`, and `FOLDER plane LENT W H FROM SKIP` what that still has from place FROM on. The output has to
// be the folder's `out`, without its first SKIP bytes. LENT are four lengths: work bytes, row values, sums and output bytes. `FOLDER keep` runs a folder's `script`.
// `FOLDER movement LIMIT LENT` compares a folder's two stills; here LENT has a length for each of both outputs.
// `FOLDER needs` asks what a folder's still and recipe need. Where a folder has no `out`, an accepted call on its file is shown with the length of what it wrote.
// `FOLDER verdict DISTANCE WORK` judges a folder's `received` by its `raw` and its `recipe`, with so many work bytes lent.
// `FOLDER limited LENT` is `FOLDER file LENT` with the panel's limits in place of the archive's.
#![tactic(auto)]

mod calls;

ghost use Rattle.std.specs.Prelude.{◌≡◌, cond, eqb};
ghost use Rattle.filter_answers.specs.Limits.{archive, panel};

use answers::Recipe;
use calls::Asked;
use filter_answers::Limits;
use room::Lent;
use std::rt::Files;
use std::{env, io};
use trial::files;

fn show_recipe(rt: &impl Print, bytes: &[u8]) -> io::Result<()> {
    match recipe::read_recipe(bytes) {
        Err(refusal) => println!(rt; "{refusal}"),
        Ok(Recipe { count, tolerance }) => println!(rt; "ok {count} {tolerance}"),
    }
}

// The limits of a call on a file, by the first letter of its kind: the panel's for `limited`, the archive's for any other.
fn limits_of(letter: u8) -> Limits
    ensures { result ≡ cond (eqb letter 108) panel archive }
{
    if letter == b'l' {
        filter_answers::PANEL
    } else {
        filter_answers::ARCHIVE
    }
}

fn lent(text: &[u8]) -> Lent {
    Lent {
        works: words::number(text, 2),
        rows: words::number(text, 3),
        sums: words::number(text, 4),
        out: words::number(text, 5),
    }
}

fn read_still(rt: &(impl Files + Print), path: &[u8]) -> io::Result<()> {
    let mut bytes = [0u8; 65536];
    rereading::show(rt, files::load(rt, path, b"", 0, &mut bytes))
}

fn read_recipe(rt: &(impl Files + Print), path: &[u8]) -> io::Result<()> {
    let mut bytes = [0u8; 65536];
    show_recipe(rt, files::load(rt, path, b"", 0, &mut bytes))
}

// A recipe with windows of one sample gives a still's samples back: the output is the still as it is written.
fn give_back(rt: &(impl Files + Print), text: &[u8], path: &[u8]) -> io::Result<()> {
    let mut recipe = [0u8; 4096];
    let mut still = [0u8; 65536];
    let mut out = [0u8; 65536];
    let recipe = files::load(rt, words::after(text, 6), b"", 0, &mut recipe);
    let still = files::load(rt, path, b"", 0, &mut still);
    let wanted = rereading::write_again(still, &mut out);
    let asked = Asked::File(filter_answers::ARCHIVE);
    calls::call(rt, lent(text), asked, recipe, still, wanted)
}

// A folder's script, on a background.
fn keep(rt: &(impl Files + Print), folder: &[u8]) -> io::Result<()> {
    let mut script = [0u8; 65536];
    let script = files::load(rt, folder, b"script", 0, &mut script);
    rt.println("steps:")?;
    scripts::run(rt, folder, script)
}

// A folder's still, or its plane.
fn filter(rt: &(impl Files + Print), text: &[u8], folder: &[u8], asked: Asked) -> io::Result<()> {
    let mut recipe = [0u8; 4096];
    let mut still = [0u8; 65536];
    let mut out = [0u8; 65536];
    let recipe = files::recipe(rt, folder, &mut recipe);
    let still = files::still(rt, folder, words::number(text, 8), &mut still);
    let wanted = files::output(rt, folder, words::number(text, 9), &mut out);
    calls::call(rt, lent(text), asked, recipe, still, wanted)
}

// A path, the kind of the call by its first letter, and what the call needs.
fn make(rt: &(impl Files + Print), text: &[u8]) -> io::Result<()> {
    let path = words::word(text, 0);
    match words::letter(text, 1) {
        b's' => read_still(rt, path),
        b'r' => read_recipe(rt, path),
        b'b' => give_back(rt, text, path),
        b'k' => keep(rt, path),
        b'm' => movement_cases::run(rt, text, path),
        b'n' => needs_cases::run(rt, path),
        b'v' => verdict_cases::run(rt, text, path),
        b'p' => {
            let asked = Asked::Plane(words::number(text, 6), words::number(text, 7));
            filter(rt, text, path, asked)
        }
        kind => filter(rt, text, path, Asked::File(limits_of(kind))),
    }
}

fn main(rt: HostRuntime) -> io::Result<()> {
    for argument in env::args(&rt)?.skip(1) {
        print!(rt; "{argument} ")?;
        make(&rt, argument.as_bytes())?;
    }
    Ok(())
}
