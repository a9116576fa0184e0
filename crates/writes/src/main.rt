// Images written by the compiled writer: the refusal, the size, and bytes of the buffer. The file
// stdout beside src/ was written by hand from the documents, and the gate compares.
#![tactic(auto)]

use std::io;

mod cases; // cases.rt: what is written

fn main(rt: HostRuntime) -> io::Result<()> {
    let mut stdout = rt.stdout();
    cases::example(&mut stdout)?;
    cases::rooms(&mut stdout)?;
    cases::largest(&mut stdout)?;
    cases::faults(&mut stdout)?;
    cases::more_faults(&mut stdout)?;
    cases::most_code(&mut stdout)?;
    cases::limits(&mut stdout)?;
    cases::most_data(&mut stdout)?;
    cases::more_code(&mut stdout)?;
    cases::more_data(&mut stdout)?;
    cases::parts(&mut stdout)
}
