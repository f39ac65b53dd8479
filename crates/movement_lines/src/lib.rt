// What the call on two stills answered, and what it left in its outputs, in a line.
#![tactic(auto)]

use answers::Movement;
use refusals::Refusal;
use std::io;

fn show_answer(rt: &impl Print, answer: Result<Movement, Refusal>) -> io::Result<()> {
    match answer {
        Err(refusal) => rt.print(refusal),
        Ok(
            Movement {
                moved,
                still,
                open,
                tolerance1,
                tolerance2,
                ..
            },
        ) => print!(rt; "moved {moved} still {still} open {open} T {tolerance1} {tolerance2}"),
    }
}

// The answer, and the checksum of each output with all that lies behind what was written.
pub fn show(
    rt: &impl Print,
    answer: Result<Movement, Refusal>,
    out1: &[u8; 65536],
    out2: &[u8; 65536],
) -> io::Result<()> {
    show_answer(rt, answer)?;
    println!(rt;
        " outputs {} {}",
        junk::checksum(out1),
        junk::checksum(out2)
    )
}
