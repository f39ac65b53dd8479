// What lent memory holds before a call, no two neighbours alike and no zero in front, and whether bytes are what they should be.
#![tactic(auto)]

// A type that lent memory may be of.
pub trait Junk: Copy + PartialEq + Drop {
    // The value that a place holds.
    fn at(place: usize) -> Self;
}

impl Junk for u8 {
    fn at(place: usize) -> u8 {
        255 - (place % 251) as u8
    }
}

impl Junk for i32 {
    fn at(place: usize) -> i32 {
        (2000000000 - place % 65521) as i32
    }
}

impl Junk for u32 {
    fn at(place: usize) -> u32 {
        (4000000000 - place % 65521) as u32
    }
}

// Fills one buffer with junk.
fn fill_one<T: Junk>(dst: &mut [T]) {
    for (place, value) in dst.iter_mut().enumerate() {
        *value = T::at(place);
    }
}

// Fills all four buffers with junk.
pub fn fill(work: &mut [u8], rows: &mut [i32], sums: &mut [u32], out: &mut [u8]) {
    fill_one(work);
    fill_one(rows);
    fill_one(sums);
    fill_one(out);
}

// Whether a buffer is as it was, from a place on.
pub fn kept_from<T: Junk>(values: &[T], from: usize) -> bool {
    for place in from..values.len() {
        if values[place] != T::at(place) {
            return false;
        }
    }
    true
}

// Whether all four buffers are as they were.
pub fn all_kept(work: &[u8], rows: &[i32], sums: &[u32], out: &[u8]) -> bool {
    kept_from(work, 0) && kept_from(rows, 0) && kept_from(sums, 0) && kept_from(out, 0)
}

// One byte more in a checksum.
fn mixed(sum: usize, b: u8) -> usize {
    (sum % 65521 * 31 + b as usize) % 65521
}

// The checksum of some bytes, the same for the same bytes.
pub fn checksum(bytes: &[u8]) -> usize {
    bytes.iter().fold(0, |sum, b| mixed(sum, *b))
}
