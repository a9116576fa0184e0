// The checker for programs in other languages: reading, beginning, running, writing and damper
// commands on numbers and lent buffers. Nothing is asked of the caller but what the parameters' types
// say (include/uviktalik.h), and each call promises what the call of `image`, `checker`, `writer` or
// `commands` of its name does, for every input. The crate `capi_c` exports the calls: their names are
// the symbols that a program is linked by; the version ends them, so that a program for another version
// does not link.
#![tactic(auto)]

ghost use Rattle.std.specs.Prelude.{◌≡◌, ◌+◌, ◌≤◌, Ok};
ghost use Rattle.image.specs.Format.{registers as register_count, part_of};
ghost use Rattle.commands.specs.Answers.{RateIsNumber};
ghost use Rattle.capi.specs.Words.{version, state_size};
ghost use Rattle.capi.specs.Commands.{command_kind, command_bits};
ghost use Rattle.capi.specs.Pieces.{Holds};
ghost use Rattle.capi.specs.Promises.{ReadPromise, BeginPromise, RunPromise, WritePromise, CommandPromise};

use checker::{Counts, State};
use commands::{Command, outputs};
use flat::registers;
use image::format;

mod kinds; // kinds.rt: the numbers of the damper commands
mod none; // none.rt: the numbers of no refusal and of no stop reason

// The number at the end of the calls' names. It goes up when their parameters change, or the words of
// a state, or those of a list's entry, or a limit.
const VERSION: u32 = 2;

// The words of a state: 16 registers, their 16 V words, and the four counts.
const STATE: usize = 36;

const REGS: usize = 0;

const REGS_V: usize = 16;

const INDEX: usize = 32;

const STEPS: usize = 33;

const OUTPUTS: usize = 34;

const REPORTS: usize = 35;

// ---- a state and its words
// Sixteen words of a state.
fn sixteen(state: [u32; STATE], at: usize) -> [u32; 16]
    requires { at + register_count ≤ state_size }
    ensures { result ≡ part_of state at register_count }
{
    let mut words = [0; 16];
    words.copy_from_slice(&state[at..at + 16]);
    words
}

fn state_in(state: [u32; STATE]) -> State
    ensures { Holds state result }
{
    let counts = Counts {
        index: state[INDEX],
        steps: state[STEPS],
        outputs: state[OUTPUTS],
        reports: state[REPORTS],
    };
    State {
        regs: registers::from_words(sixteen(state, REGS)),
        shadows: registers::from_words(sixteen(state, REGS_V)),
        counts: counts,
    }
}

fn words_of(s: State) -> [u32; STATE]
    ensures { Holds result s }
{
    let c = s.counts;
    let mut words = [0; STATE];
    words[REGS..REGS_V].copy_from_slice(&registers::to_words(s.regs));
    words[REGS_V..INDEX].copy_from_slice(&registers::to_words(s.shadows));
    words[INDEX..STATE].copy_from_slice(&[c.index, c.steps, c.outputs, c.reports]);
    words
}

// ---- a damper command and its numbers
// Its kind.
fn kind_of(command: Command) -> u8
    ensures { result ≡ command_kind command }
{
    match command {
        Command::Bump(_) => kinds::BUMP,
        Command::Rebound(_) => kinds::REBOUND,
        Command::Preload(_) => kinds::PRELOAD,
        Command::Blocked(_) => kinds::BLOCKED,
    }
}

// The bits of its rate; the port, if it is blocked.
fn bits_of(command: Command) -> u32
    requires { RateIsNumber (Ok command) }
    ensures { result ≡ command_bits command }
{
    match command {
        Command::Bump(rate) | Command::Rebound(rate) | Command::Preload(rate) => {
            f32::to_bits(rate)
        },
        Command::Blocked(port) => port,
    }
}

// ---- the calls, with the parameters that C has
// The version, for a program that loads the library while it runs. Its own name has none, and stays.
pub fn uviktalik_version() -> u32
    ensures { result ≡ version }
{
    VERSION
}

// Reads an image: M, N, R and D to header, where the code begins and how many bytes it has to code,
// zeros when refused; the index at fault to fault. Returns 0 or the refusal's number.
pub fn uviktalik_read_2(
    image: &[u8],
    header: &mut [u32; 4],
    code: &mut [usize; 2],
    fault: &mut usize,
) -> u8
    ensures { ReadPromise image.now result header.new code.new fault.new }
{
    match image::read(image) {
        Ok(found) => {
            *header = [found.m, found.n, found.r, found.d];
            *code = [format::HEADER, format::INSTRUCTION * found.n as usize];
            *fault = 0;
            none::ACCEPTED
        },
        Err(refusal) => {
            *header = [0; 4];
            *code = [0; 2];
            *fault = refusal.index();
            refusal.number()
        },
    }
}

// Begins a program, as `checker::begin` does: the state's words to state, the index at fault to
// fault. Returns 0 or the refusal's number.
pub fn uviktalik_begin_2(
    image: &[u8],
    regs: &[u32; 16],
    mem: &mut [u8],
    vbits: &mut [u8],
    abits: &mut [u8],
    state: &mut [u32; STATE],
    fault: &mut usize,
) -> u8
    ensures { BeginPromise image.now regs.now mem.old vbits.old abits.old result mem.new vbits.new abits.new state.new fault.new }
{
    let began = checker::begin(image, registers::from_words(*regs), mem, vbits, abits);
    match began {
        Ok(begun) => {
            *state = words_of(begun);
            *fault = 0;
            none::ACCEPTED
        },
        Err(refusal) => {
            *state = [0; STATE];
            *fault = refusal.index();
            refusal.number()
        },
    }
}

// Runs a program from a state, as `checker::run` does: the state's words are taken from state and
// left there, the stop reason to reason, the index at fault to fault. Returns 0 or the refusal's
// number.
pub fn uviktalik_run_2(
    image: &[u8],
    state: &mut [u32; STATE],
    mem: &mut [u8],
    vbits: &mut [u8],
    abits: &mut [u8],
    reports: &mut [u32],
    outputs: &mut [u32],
    budget: u32,
    reason: &mut u8,
    fault: &mut usize,
) -> u8
    ensures { RunPromise image.now state.old mem.old vbits.old abits.old reports.old outputs.old budget result state.new mem.new vbits.new abits.new reports.new outputs.new reason.new fault.new }
{
    let given = state_in(*state);
    match checker::run(image, given, mem, vbits, abits, reports, outputs, budget) {
        Ok(ran) => {
            *state = words_of(ran.state);
            *reason = ran.reason.number();
            *fault = 0;
            none::ACCEPTED
        },
        Err(refusal) => {
            *reason = none::REASON;
            *fault = refusal.index();
            refusal.number()
        },
    }
}

// Writes an image, as `writer::write` does: how many bytes it has to size, 0 when refused, the index at
// fault to fault. Returns 0 or the refusal's number.
pub fn uviktalik_write_2(
    m: u32,
    instructions: &[u32],
    regions: &[u32],
    data: &[u8],
    out: &mut [u8],
    size: &mut usize,
    fault: &mut usize,
) -> u8
    ensures { WritePromise m instructions.now regions.now «data».now out.old result out.new size.new fault.new }
{
    match writer::write(m, instructions, regions, data, out) {
        Ok(written) => {
            *size = written;
            *fault = 0;
            none::ACCEPTED
        },
        Err(refusal) => {
            *size = 0;
            *fault = refusal.index();
            refusal.number()
        },
    }
}

// Hands an output that was made on as a damper command, as `commands::outputs::command` does: its kind
// to kind, the bits of its rate, or the port if it is blocked, to bits, zeros when refused. Returns 0 or
// the refusal's number.
pub fn uviktalik_command_2(outputs: &[u32], number: usize, kind: &mut u8, bits: &mut u32) -> u8
    ensures { CommandPromise outputs.now number result kind.new bits.new }
{
    match outputs::command(outputs, number) {
        Ok(command) => {
            *kind = kind_of(command);
            *bits = bits_of(command);
            none::ACCEPTED
        },
        Err(refusal) => {
            *kind = kinds::NONE;
            *bits = 0;
            refusal.number()
        },
    }
}
