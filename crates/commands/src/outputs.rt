// The command of one of the outputs made. The list holds these and nothing else, two words each.
ghost use Rattle.std.specs.Prelude.{◌≡◌};
ghost use Rattle.commands.specs.Answers.{ports_ok, accepts, refusal_number};
ghost use Rattle.commands.specs.Promises.{CommandPromise};

use super::{Command, WrongOutputs, gates};
use flat::limits::{MOST_OUTPUTS, OUTPUT};
use image::format::PORTS;

// Whether each output names a port.
#[tactic(auto, unfolding(crate::specs::Answers::ports_ok))]
fn ports_ok(outputs: &[u32]) -> bool
    ensures { result ≡ ports_ok outputs.now }
{
    outputs.chunks_exact(OUTPUT).all(|output| output[0] < PORTS)
}

// Whether the list is one of outputs and has one of that number: whole entries, not too many, and a
// port in each.
#[tactic(auto, unfolding(crate::specs::Answers::accepts))]
fn accepted(outputs: &[u32], number: usize) -> bool
    ensures { result ≡ accepts outputs.now number }
{
    (outputs.len() % OUTPUT == 0)
        & (outputs.len() <= OUTPUT * MOST_OUTPUTS)
        & (number < outputs.len() / OUTPUT)
        && ports_ok(outputs)
}

// The command of output number `number`, from 0, or the refusal.
#[tactic(auto, using(crate::proofs::ListLaws::in_list))]
pub fn command(outputs: &[u32], number: usize) -> Result<Command, WrongOutputs>
    ensures { CommandPromise outputs.now number result }
{
    if !accepted(outputs, number) {
        return Err(WrongOutputs);
    }
    let at = OUTPUT * number;
    Ok(gates::command_of(outputs[at], outputs[at + 1]))
}

// The refusal's number of an answer, 0 if there is none.
pub fn refusal_number(answer: Result<Command, WrongOutputs>) -> u8
    ensures { result ≡ refusal_number answer }
{
    match answer {
        Ok(_) => 0,
        Err(refusal) => refusal.number(),
    }
}
