// Damper commands (02, L7): an output that was made, handed on as a command that carries its rate, or
// as blocked with its port. The list of outputs is only read. Every function that another crate can
// call asks nothing, and equals a definition in specs/ or the logic's own.
#![tactic(auto)]

mod gates; // gates.rt: the gate of each port, and the command that two words make
pub mod outputs; // outputs.rt: the command of one of the outputs made
pub mod rates; // rates.rt: the bits of a rate
mod refusals; // refusals.rt: the refusal, with its number

pub use refusals::WrongOutputs;

// What an output means: ports 0, 1 and 2 carry a rate, and what is blocked names its port.
#[derive(Clone, Copy, Debug, PartialEq)]
pub enum Command {
    Bump(f32),
    Rebound(f32),
    Preload(f32),
    Blocked(u32),
}
