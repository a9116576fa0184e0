// A script of programs, which the compiled checker begins and runs: it is read from standard input, the
// file stdin beside src/. The file stdout was written by hand from the documents, and the gate compares.
#![tactic(auto)]

use desk::Desk;
use image::format::part;
use numbers::LINE;
use std::io;
use std::io::Read;

mod changes; // changes.rt: how a call ended, and what it changed
mod desk; // desk.rt: the commands of the script
mod numbers; // numbers.rt: the numbers and bytes of a line
mod series; // series.rt: a beginning and the runs after it

const SCRIPT: u64 = 60_000;

fn main(rt: HostRuntime) -> io::Result<()> {
    let mut line = [0u8; LINE];
    // there is no heap: a line is put into a buffer byte by byte
    let mut n = 0usize;
    let mut desk = Desk::empty();
    let mut out = rt.stdout();
    for read in rt.stdin().lock().take(SCRIPT).bytes() {
        let b = read?;
        if b == b'\n' {
            desk.obey(&mut out, part(&line, 0, n))?;
            n = 0;
        } else {
            if let Some(place) = line.get_mut(n) {
                *place = b;
            }
            n = n % LINE + 1;
        }
    }
    Ok(())
}
