// Files on disk, read and written.
#![tactic(auto)]

ghost use Rattle.std.specs.Prelude.{◌≡◌};
ghost use Rattle.disk_tests.specs.Disk.{out_name};

use std::fs::File;
use std::io::{Read, Write};
use std::rt::Files;
use std::{fs, io, str};

// A read may stop short of the file's end, and one that fails is no end: a folder can be opened too.
fn read_all(file: &mut impl Read, bytes: &mut [u8]) -> Option<usize> {
    let mut done = 0;
    while done < bytes.len() {
        let more = file.read(&mut bytes[done..]).ok()?;
        if more == 0 {
            break;
        }
        done += more;
    }
    Some(done)
}

// How many bytes were read, to the file's end or until the buffer was full: none where it could not be read. A file's name is text here: no other can be opened.
pub fn load(rt: &impl Files, path: &[u8], bytes: &mut [u8]) -> Option<usize> {
    let name = str::from_utf8(path).ok()?;
    let mut file = fs::open(rt, name).ok()?;
    read_all(&mut file, bytes)
}

// Whether the disk has what was written: it may say only here that it did not keep it. A device and a pipe have none to ask.
fn on_disk(file: &File) -> io::Result<()> {
    if file.metadata()?.is_file() {
        file.sync_all()?;
    }
    Ok(())
}

// A file that holds these bytes and no others: it is opened, written whole and kept.
// What happens on a disk is beyond any contract; that nothing goes there under another name is required.
fn put(rt: &impl Files<File = File>, name: &str, bytes: &[u8]) -> io::Result<()>
    requires { name.now ≡ out_name }
{
    let mut file = fs::create(rt, name)?;
    file.write_all(bytes)?;
    on_disk(&file)
}

// Whether the file `out` now holds these bytes and no others.
pub fn save(rt: &impl Files<File = File>, bytes: &[u8]) -> bool {
    put(rt, "out", bytes).is_ok()
}
