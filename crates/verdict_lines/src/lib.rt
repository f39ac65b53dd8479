// What a verdict comes to, as a line.
#![tactic(auto)]

use refusals::Refusal;
use std::io;

// The answer, and after a refusal the checksum of all work bytes: none may have changed.
pub fn show(rt: &impl Print, answer: Result<bool, Refusal>, work: &[u8; 65536]) -> io::Result<()> {
    match answer {
        Err(refusal) => println!(rt; "{refusal} work {}", junk::checksum(work)),
        Ok(true) => rt.println("yes"),
        Ok(false) => rt.println("not"),
    }
}
