// What a program that tries the calls needs, and no call of the library: files, and what a call left in buffers.
#![tactic(auto)]

pub mod files;
pub mod outcome;
