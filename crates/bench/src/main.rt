// The two examples of weights into 65,536ths, as request 2026-06 has them, run: whether each weight that comes out is the paper's.
#![tactic(auto)]

use std::io;

fn compare(rt: &impl Print, found: i32, wanted: i32) -> io::Result<()> {
    let word = if found == wanted { "yes" } else { "no" };
    print!(rt; " {word}")
}

// A stage of ratios after its header bytes, three over 3 at -1 0 1 across and 1 over 1 at 0 down: its weights across, against three that are wanted.
fn show(rt: &impl Print, part: &[u8], a: i32, b: i32, c: i32) -> io::Result<()> {
    match recipe_kernels::tests(part, false) {
        Err(_) => print!(rt; " refused")?,
        Ok(()) => {
            let axis = kernels::axis_of(recipe_kernels::kernel_on(part, false, 0));
            let weights = axis.weights;
            compare(rt, weights[0], a)?;
            compare(rt, weights[1], b)?;
            compare(rt, weights[2], c)?;
        }
    }
    println!(rt)
}

fn main(rt: HostRuntime) -> io::Result<()> {
    print!(rt; "1 1 1 over 3: 21845 21846 21845")?;
    show(
        &rt,
        b"\x03\x01\x00\x03\x00\x01\xff\x00\x01\x00\x00\x01\x00\x01\x00\x01\x00\x01",
        21845,
        21846,
        21845,
    )?;
    print!(rt; "-1 -1 5 over 3: -21845 -21845 109226")?;
    show(
        &rt,
        b"\x03\x01\x00\x03\x00\x01\xff\x00\x01\x00\xff\xff\xff\xff\x00\x05\x00\x01",
        -21845,
        -21845,
        109226,
    )
}
