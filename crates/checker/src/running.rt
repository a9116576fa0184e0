// The run (document 01, A run, its lists and its end): a dispatch loop whose value is the first stop
// reason that it meets.
ghost use Rattle.std.specs.Prelude.{◌≡◌, cond, ◌≤◌, eqb, leb};
ghost use Rattle.image.specs.Format.{most_n};
ghost use Rattle.machine.specs.Machine.{program_in};
ghost use Rattle.machine.specs.Runs.{goes_on, no_budget, no_place, ended};
ghost use Rattle.machine.specs.Checker.{run_of};
ghost use Rattle.checker.specs.Reasons.{reason_number, reason_in};
ghost use Rattle.checker.specs.Pieces.{world_in, Lent, CodeReads, Ready, standing, MayTurn, reason_by, Reasons, Turned};

use super::Reason;
use super::fields::Place;
use super::step::Machine;
use flat::limits::OUTPUT;
use image::ops;

// ---- the stop reasons, by the outputs made and how many have a place: two numbers, as a struct of them
// would be taken apart again
// At EMIT: no place left for its output, or what holds otherwise.
fn at_emit(outputs: u32, places: usize, otherwise: Option<Reason>) -> Option<Reason>
    ensures { reason_in result ≡ cond (leb places outputs) no_place (reason_in otherwise) }
{
    if places <= outputs as usize {
        return Some(Reason::NoPlace);
    }
    otherwise
}

// Before an op of the program: STOP, EMIT without a place, or what holds otherwise.
fn reason_of(op: u8, outputs: u32, places: usize, otherwise: Option<Reason>) -> Option<Reason>
    ensures { reason_in result ≡ reason_by op places outputs (reason_in otherwise) }
{
    match op {
        ops::STOP => Some(Reason::Stopped),
        ops::EMIT => at_emit(outputs, places, otherwise),
        _ => otherwise,
    }
}

// The budget is asked first, so that with some left nothing stands between the op and its step.
fn reason_at(op: u8, outputs: u32, places: usize, left: u32) -> Option<Reason>
    ensures { reason_in result ≡ reason_by op places outputs (cond (eqb left 0) no_budget goes_on) }
{
    if left == 0 {
        return reason_of(op, outputs, places, Some(Reason::NoBudget));
    }
    reason_of(op, outputs, places, None)
}

// ---- the loop
impl Machine<'_> {
    // One turn: the reason to stop at the index, or the step of the instruction there.
    #[tactic(auto, using(crate::proofs::RunningLaws::at_end, crate::proofs::RunningLaws::before_end))]
    fn turn(&mut self, code: &[u8], n: u32, places: usize, left: u32) -> Option<Reason>
        requires { MayTurn code.now n self.old }
        ensures lent { Lent self.old self.new }
        ensures reasons { Reasons code.now n places left self.old.counts (reason_in result) }
        ensures turned { Turned (standing code.now self.old.counts.index) (reason_in result) (world_in self.old) (world_in self.new) }
    {
        if n <= self.counts.index {
            return Some(Reason::PastEnd);
        }
        let here = Place {
            code: code,
            index: self.counts.index,
        };
        let op = here.op();
        let found = reason_at(op, self.counts.outputs, places, left);
        if found.is_none() {
            self.step(op, here);
        }
        found
    }

    // The run, with a budget of so many steps: why it ended. A loop whose value is given by `break`, as
    // document 01 has it.
    #[tactic(auto, using(crate::proofs::RunningLaws::may_turn, crate::proofs::RunningLaws::ends, crate::proofs::RunningLaws::some_reason))]
    pub fn run_on(&mut self, code: &[u8], n: u32, m: u32, budget: u32) -> Reason
        requires { (n ≤ most_n) × CodeReads code.now n m × Ready n m (world_in self.old) budget }
        ensures lent { Lent self.old self.new }
        ensures ran { ended (reason_number result) (world_in self.new) ≡ run_of (program_in code.now n m) budget (world_in self.old) }
    {
        let places = self.outputs.len() / OUTPUT;
        let mut left = budget;
        loop {
            if let Some(reason) = self.turn(code, n, places, left) {
                break reason;
            }
            left -= 1;
        }
    }
}
