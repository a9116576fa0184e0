// The checker as a program (document 01, The program): an image on standard input, reports, outputs and
// the end on standard output. All that matters is in the crate `checker`.
#![tactic(auto)]

ghost use Rattle.std.specs.Prelude.{◌≤◌, length, IfOk};

use checker::{Ran, Refusal};
use flat::limits;
use image::format::FRAME_REGISTER;
use rules::Data;
use std::io;
use std::io::{ErrorKind, Read, Write};

// One byte more than the largest image has: whatever is longer is refused as well.
const INPUT: usize = image::format::LARGEST + 1;

// The most memory that an image can name.
const MEMORY: usize = image::format::MOST_M as usize;

// The words of a report (steps, index, kind and detail), and of an output (port and value).
type Report = [u32; limits::REPORT];

type Output = [u32; limits::OUTPUT];

// Begins and runs a program with M bytes of memory, all of them zeros, and register 15 equal to M.
#[tactic(auto, using(crate::proofs::Memory::memory))]
fn run(image: &[u8], reports: &mut [u32], outputs: &mut [u32]) -> Result<Ran, Refusal> {
    let found = image::read(image)?;
    let m = found.m as usize;
    let mut bytes = [0; MEMORY];
    let mut bytes_v = [0; MEMORY];
    let mut bytes_a = [0; MEMORY];
    let mem = &mut bytes[..m];
    let vbits = &mut bytes_v[..m];
    let abits = &mut bytes_a[..m];
    let mut regs = [Data(0); 16];
    regs[FRAME_REGISTER] = Data(found.m);
    let state = checker::begin(image, regs, mem, vbits, abits)?;
    checker::run(
        image,
        state,
        mem,
        vbits,
        abits,
        reports,
        outputs,
        limits::MOST_STEPS,
    )
}

// The reports and outputs that have a place, and the end.
fn show(out: &mut impl Write, ran: Ran, reports: &[Report], outputs: &[Output]) -> io::Result<()> {
    let counts = ran.state.counts;
    for [steps, index, kind, detail] in reports.iter().take(counts.reports as usize) {
        writeln!(out, "step {steps} at {index} kind {kind} detail {detail}")?;
    }
    for [port, value] in outputs.iter().take(counts.outputs as usize) {
        writeln!(out, "out port {port} value {value}")?;
    }
    writeln!(
        out,
        "end {} steps {} reports {} outputs {}",
        ran.reason.number(),
        counts.steps,
        counts.reports,
        counts.outputs
    )
}

// Runs a program, and shows what came of it.
fn check(out: &mut impl Write, image: &[u8]) -> io::Result<()> {
    let mut reports = [[0; limits::REPORT]; limits::MOST_REPORTS];
    let mut outputs = [[0; limits::OUTPUT]; limits::MOST_OUTPUTS];
    match run(
        image,
        reports.as_flattened_mut(),
        outputs.as_flattened_mut(),
    ) {
        Ok(ran) => show(out, ran, &reports, &outputs),
        Err(refusal) => writeln!(out, "refused {} at {}", refusal.number(), refusal.index()),
    }
}

// Fills the buffer from a stream, and says how many bytes came before the end of the one or the other.
// A read may be interrupted any number of times: nothing else bounds the loop, so the turns are counted.
fn fill(input: &mut impl Read, buffer: &mut [u8]) -> io::Result<usize>
    ensures { IfOk result (λ n. n ≤ length buffer.new) }
{
    let mut size = 0;
    for _ in 0..u64::MAX {
        let rest = &mut buffer[size..];
        if rest.is_empty() {
            return Ok(size);
        }
        match input.read(rest) {
            Ok(0) => return Ok(size),
            Ok(n) => size += n,
            Err(e) if e.kind() == ErrorKind::Interrupted => {}
            Err(e) => return Err(e),
        }
    }
    Err(ErrorKind::Interrupted.into())
}

fn main(rt: HostRuntime) -> io::Result<()> {
    let mut input = [0u8; INPUT];
    let size = fill(&mut rt.stdin(), &mut input)?;
    check(&mut rt.stdout(), &input[..size])
}
