// The public calls, with their refusals (document 01, When the bench says no).
ghost use Rattle.std.specs.Prelude.{◌≡◌, ◌&&◌, List, ℕ, ◌+◌, ◌*◌, ◌^◌, ◌<◌, leb};
ghost use Rattle.std.specs.List.{list_all};
ghost use Rattle.image.specs.Refusals.{header_with};
ghost use Rattle.machine.specs.Machine.{parts};
ghost use Rattle.machine.specs.Lists.{report_size, output_size};
ghost use Rattle.machine.specs.Calls.{most_reports, most_outputs, most_steps, buffers_ok, list_ok, counts_ok, begin_refusal, run_refusal};
ghost use Rattle.checker.specs.Refusals.{reading_of};
ghost use Rattle.checker.specs.Views.{counts_of, world};
ghost use Rattle.checker.specs.Promises.{BeginPromise, RunPromise};

use super::registers::Registers;
use super::step::Machine;
use super::{Counts, Ran, Refusal, State, beginning};
use flat::{limits, registers};
use image::Header;
use image::format::FRAME_REGISTER;
use rules::{Data, Shadow};

// ---- the tests
// Whether the three buffers have so many bytes.
fn buffers_ok(m: u32, mem: &[u8], vbits: &[u8], abits: &[u8]) -> bool
    ensures { result ≡ buffers_ok m mem.now vbits.now abits.now }
{
    [mem.len(), vbits.len(), abits.len()] == [m as usize; 3]
}

// Whether a list has whole entries of so many words, at most so many. The crate `commands`, beside this
// one, makes the two comparisons for its own list: a function for both is no plainer.
fn list_ok(size: usize, most: usize, l: &[u32]) -> bool
    requires { (0 < size) × (size * most < 2 ^ 64) }
    ensures { result ≡ list_ok size most l.now }
{
    (l.len() % size == 0) & (l.len() <= size * most)
}

// Whether the buffers have so many bytes, and the lists whole entries: one by one, as C lends them, since
// their sizes are what is tested.
fn sizes_ok(
    m: u32,
    mem: &[u8],
    vbits: &[u8],
    abits: &[u8],
    reports: &[u32],
    outputs: &[u32],
) -> bool
    ensures { result ≡ buffers_ok m mem.now vbits.now abits.now && list_ok report_size most_reports reports.now && list_ok output_size most_outputs outputs.now }
{
    buffers_ok(m, mem, vbits, abits)
        & list_ok(limits::REPORT, limits::MOST_REPORTS, reports)
        & list_ok(limits::OUTPUT, limits::MOST_OUTPUTS, outputs)
}

fn steps_ok(c: Counts, budget: u32) -> bool
    ensures { result ≡ leb (c.steps + budget) most_steps }
{
    c.steps as u64 + budget as u64 <= limits::MOST_STEPS as u64
}

// Whether the A bytes are 0 or 1.
fn marks_ok(abits: &[u8]) -> bool
    ensures { result ≡ list_all (λ mark. leb mark 1) abits.now }
{
    abits.iter().all(|mark| *mark <= 1)
}

fn counts_ok(n: u32, places: usize, c: Counts) -> bool
    ensures { result ≡ counts_ok n places (counts_of c) }
{
    (c.index <= n) & (c.outputs as usize <= places) & (c.reports as u64 <= 2 * c.steps as u64)
}

// ---- the refusals, the first that applies in number order: those of reading come first
// Whether a program may begin: the image's header, or the refusal.
fn may_begin(image: &[u8], mem: &[u8], vbits: &[u8], abits: &[u8]) -> Result<Header, Refusal>
    ensures { reading_of result ≡ header_with (begin_refusal image.now mem.now vbits.now abits.now) image.now }
{
    let found = image::read(image)?;
    if !buffers_ok(found.m, mem, vbits, abits) {
        return Err(Refusal::WrongSize);
    }
    Ok(found)
}

// Whether a run may go on from these counts: the same, of what C lends.
fn may_run(
    image: &[u8],
    c: Counts,
    mem: &[u8],
    vbits: &[u8],
    abits: &[u8],
    reports: &[u32],
    outputs: &[u32],
    budget: u32,
) -> Result<Header, Refusal>
    ensures { (regs regs_v : List ℕ) → reading_of result ≡ header_with (run_refusal image.now (world c (parts regs regs_v mem.now vbits.now abits.now) reports.now outputs.now) budget) image.now }
{
    let found = image::read(image)?;
    if !sizes_ok(found.m, mem, vbits, abits, reports, outputs) {
        return Err(Refusal::WrongSize);
    }
    if !steps_ok(c, budget) {
        return Err(Refusal::TooManySteps);
    }
    if !marks_ok(abits) {
        return Err(Refusal::WrongMark);
    }
    if !counts_ok(found.n, outputs.len() / limits::OUTPUT, c) {
        return Err(Refusal::WrongCount);
    }
    Ok(found)
}

// ---- the calls, with the parameters that those for C hand on
// Begins a program: sets out memory, V bits and A bits as the image says, and gives a state with the
// caller's register values. Refused: why, and the buffers untouched.
pub fn begin(
    image: &[u8],
    regs: [Data; 16],
    mem: &mut [u8],
    vbits: &mut [u8],
    abits: &mut [u8],
) -> Result<State, Refusal>
    ensures { BeginPromise image.now regs mem.old vbits.old abits.old result mem.new vbits.new abits.new }
{
    let found = may_begin(image, &mem[..], &vbits[..], &abits[..])?;
    beginning::lay_out(image, found, mem, vbits, abits);
    let mut shadows = [Shadow(u32::MAX); 16];
    shadows[FRAME_REGISTER] = Shadow(0);
    Ok(State {
        regs: regs,
        shadows: shadows,
        counts: Counts::default(),
    })
}

// Runs a program from a state, for at most so many steps, and says why it ended. Any state, buffers
// and lists may be handed in. Refused: why, and all five buffers untouched; the caller has the state.
pub fn run(
    image: &[u8],
    state: State,
    mem: &mut [u8],
    vbits: &mut [u8],
    abits: &mut [u8],
    reports: &mut [u32],
    outputs: &mut [u32],
    budget: u32,
) -> Result<Ran, Refusal>
    ensures { RunPromise image.now state mem.old vbits.old abits.old reports.old outputs.old budget result mem.new vbits.new abits.new reports.new outputs.new }
{
    let counts = state.counts;
    let found = may_run(
        image,
        counts,
        &mem[..],
        &vbits[..],
        &abits[..],
        &reports[..],
        &outputs[..],
        budget,
    )?;
    let code = image::format::code_part(image, found.n);
    let mut registers = Registers {
        data: registers::to_words(state.regs),
        shadows: registers::to_words(state.shadows),
    };
    let mut machine = Machine {
        counts: counts,
        registers: &mut registers,
        mem: mem,
        vbits: vbits,
        abits: abits,
        reports: reports,
        outputs: outputs,
    };
    let reason = machine.run_on(code, found.n, found.m, budget);
    Ok(Ran {
        reason: reason,
        state: machine.state(),
    })
}
