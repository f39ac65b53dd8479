// The files of a folder.
ghost use Rattle.std.specs.Prelude.{◌≤◌, length};

use arrayvec::ArrayVec;
use std::io::Read;
use std::rt::Files;
use std::{fs, str};

// A file of a folder, opened. A file's name is text here.
fn open<F: Files>(rt: &F, folder: &[u8], name: &[u8]) -> Option<F::File> {
    let mut path = ArrayVec::<u8, 4096>::new();
    path.try_extend_from_slice(folder).ok()?;
    path.try_extend_from_slice(name).ok()?;
    let text = str::from_utf8(path.as_slice()).ok()?;
    fs::open(rt, text).ok()
}

// What was read until the buffer was full, the file ended or a read failed.
fn read_full<'a>(file: &mut impl Read, bytes: &'a mut [u8]) -> &'a [u8]
    ensures { length result.now ≤ length bytes.old }
{
    let mut done = 0;
    while done < bytes.len() {
        let Ok(more) = file.read(&mut bytes[done..]) else {
            break;
        };
        if more == 0 {
            break;
        }
        done += more;
    }
    &bytes[..done]
}

// Reads the first bytes of a file, to be forgotten.
fn skip(file: &mut impl Read, from: usize, bytes: &mut [u8]) {
    if let Some(front) = bytes.get_mut(..from) {
        read_full(file, front);
    }
}

// What was read of a folder's file from a place on: nothing where there is no such file.
pub fn load<'a>(
    rt: &impl Files,
    folder: &[u8],
    name: &[u8],
    from: usize,
    bytes: &'a mut [u8],
) -> &'a [u8]
    ensures { length result.now ≤ length bytes.old }
{
    let Some(mut file) = open(rt, folder, name) else {
        return &[];
    };
    skip(&mut file, from, bytes);
    read_full(&mut file, bytes)
}

// The recipe of a folder.
pub fn recipe<'a>(rt: &impl Files, folder: &[u8], bytes: &'a mut [u8]) -> &'a [u8]
    ensures { length result.now ≤ length bytes.old }
{
    load(rt, folder, b"recipe", 0, bytes)
}

// The still of a folder, from a place on.
pub fn still<'a>(rt: &impl Files, folder: &[u8], from: usize, bytes: &'a mut [u8]) -> &'a [u8]
    ensures { length result.now ≤ length bytes.old }
{
    load(rt, folder, b"still", from, bytes)
}

// The output that a folder's still has to give, from a place on.
pub fn output<'a>(rt: &impl Files, folder: &[u8], from: usize, bytes: &'a mut [u8]) -> &'a [u8]
    ensures { length result.now ≤ length bytes.old }
{
    load(rt, folder, b"out", from, bytes)
}
