// Outputs handed on by the compiled code, a line each: what two words make, and what lists answer. The
// file stdout beside src/ was worked out without this code, and the gate compares.
#![tactic(auto)]

use std::io;

mod cases; // cases.rt: the outputs and lists

fn main(rt: HostRuntime) -> io::Result<()> {
    let mut out = rt.stdout();
    cases::values(&mut out)?;
    cases::ports(&mut out)?;
    cases::lists(&mut out)?;
    cases::sizes(&mut out)
}
