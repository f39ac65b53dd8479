// A still that is read, written and read again.
#![tactic(auto)]

ghost use Rattle.std.specs.Prelude.{◌≤◌, length, IfOk};

use answers::Picture;
use refusals::Refusal;
use std::io;

fn show_read(rt: &impl Print, bytes: &[u8]) -> io::Result<()> {
    match still_reader::read_still(bytes) {
        Err(refusal) => println!(rt; "{refusal}"),
        Ok(
            Picture {
                width,
                height,
                channels,
                start,
            },
        ) => println!(rt; "ok {width} {height} {channels} {start}"),
    }
}

// How many bytes a still has once it is written.
fn rewritten(still: &[u8], out: &mut [u8]) -> Result<usize, Refusal>
    ensures { IfOk result (λ n. n ≤ length out.new) }
{
    let picture = still_reader::read_still(still)?;
    let raster = still.get(picture.start..).unwrap_or(&[]);
    still_writer::write_still(picture.width, picture.height, picture.channels, raster, out)
}

// A still as it is written: nothing where it was refused.
pub fn write_again<'a>(still: &[u8], out: &'a mut [u8]) -> &'a [u8]
    ensures { length result.now ≤ length out.old }
{
    match rewritten(still, out) {
        Ok(len) => &out[..len],
        Err(_) => &[],
    }
}

// How many bytes were written, and their checksum, and what is read of them.
fn show_written(rt: &impl Print, written: &[u8]) -> io::Result<()> {
    print!(rt;
        "  written {} {}\n  again ",
        written.len(),
        junk::checksum(written)
    )?;
    show_read(rt, written)
}

// What is read of a still and, where it is accepted, of the still that is written of it.
pub fn show(rt: &impl Print, still: &[u8]) -> io::Result<()> {
    show_read(rt, still)?;
    let mut out = [0u8; 65536];
    let written = write_again(still, &mut out);
    if written.is_empty() {
        return Ok(());
    }
    show_written(rt, written)
}
