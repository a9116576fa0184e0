// The checker (document 01: the bench): begins and runs a program with a V bit beside every bit and
// an A byte beside every byte. `begin` and `run` take any image, any state and buffers of any size,
// check everything themselves, and equal `begin_answer` and `run_answer` of the crate `machine`.
#![tactic(auto)]

use rules::{Data, Shadow};

mod beginning; // beginning.rt: what an accepted image makes of the buffers
mod calls; // calls.rt: the public calls with their refusals
mod counting; // counting.rt: the counts
mod dispatch; // dispatch.rt: one step
mod fields; // fields.rt: an instruction where it stands
mod kinds; // kinds.rt: the kinds of report
mod lists; // lists.rt: the two lists
mod ranges; // ranges.rt: ranges of bytes
mod reasons; // reasons.rt: the stop reasons, with their numbers
mod refusals; // refusals.rt: the refusals, with their numbers and indices
mod registers; // registers.rt: the registers of a run
mod running; // running.rt: the run
mod step; // step.rt: what each group of instructions does

pub use calls::{begin, run};
pub use flat::limits; // the sizes of a run
pub use reasons::Reason;
pub use refusals::Refusal;

// The next instruction's index; how many steps were taken, outputs and reports made.
#[derive(Clone, Copy, Default, PartialEq, Eq)]
pub struct Counts {
    pub index: u32,
    pub steps: u32,
    pub outputs: u32,
    pub reports: u32,
}

// The registers with their V words, and the counts.
#[derive(Clone, Copy)]
pub struct State {
    pub regs: [Data; 16],
    pub shadows: [Shadow; 16],
    pub counts: Counts,
}

// What a run answers: why it ended, and the state.
#[derive(Clone, Copy)]
pub struct Ran {
    pub reason: Reason,
    pub state: State,
}
