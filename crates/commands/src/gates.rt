// The gate of each port, and the command that an output's two words make. Values are compared as words
// and not as floats, so that the answer is the same in every mode of the processor, even if it takes
// subnormal numbers for 0.
ghost use Rattle.std.specs.Prelude.{◌≡◌};
ghost use Rattle.commands.specs.Gates.{command_with, command_of};
ghost use Rattle.commands.specs.ByBits.{highest_bits, passes_by_bits};
ghost use Rattle.commands.specs.Ports.{port_of_gate, GateAt};

use super::Command;

// The gates. Each has a port.
#[derive(Clone, Copy, Debug, PartialEq, Eq)]
enum Gate {
    Bump,
    Rebound,
    Preload,
}

// A port that has no gate.
#[derive(Clone, Copy, Debug, PartialEq, Eq)]
struct NoGate;

// The bits of the highest rates, 8000 at bump and rebound and 40 at preload, and of minus zero.
const HIGHEST_DAMPING: u32 = 0x45FA_0000;

const HIGHEST_PRELOAD: u32 = 0x4220_0000;

const MINUS_ZERO: u32 = 0x8000_0000;

impl TryFrom<u32> for Gate {
    type Error = NoGate;

    ghost try_from_gives = { GateAt };

    fn try_from(port: u32) -> Result<Gate, NoGate> {
        match port {
            0 => Ok(Gate::Bump),
            1 => Ok(Gate::Rebound),
            2 => Ok(Gate::Preload),
            _ => Err(NoGate),
        }
    }
}

impl Gate {
    // The bits of its highest rate. The lowest rate is 0 at each.
    #[tactic(auto, unfolding(crate::specs::ByBits::highest_bits))]
    fn highest_bits(self) -> u32
        ensures { result ≡ highest_bits (port_of_gate self) }
    {
        match self {
            Gate::Bump | Gate::Rebound => HIGHEST_DAMPING,
            Gate::Preload => HIGHEST_PRELOAD,
        }
    }

    // Whether a value passes: minus zero, and from 0 to the highest rate, ends allowed. All else has
    // higher bits than these: infinity, what is not a number, all that is below 0.
    #[tactic(auto, unfolding(crate::specs::ByBits::passes_by_bits))]
    fn passes(self, value: u32) -> bool
        ensures { result ≡ passes_by_bits (port_of_gate self) value }
    {
        (value == MINUS_ZERO) | (value <= self.highest_bits())
    }

    // The command of a rate that has passed.
    #[tactic(auto, unfolding(crate::specs::Gates::command_with))]
    fn carrying(self, rate: f32) -> Command
        ensures { result ≡ command_with (port_of_gate self) rate }
    {
        match self {
            Gate::Bump => Command::Bump(rate),
            Gate::Rebound => Command::Rebound(rate),
            Gate::Preload => Command::Preload(rate),
        }
    }
}

// The command that a port and a value make.
#[tactic(auto, using(crate::proofs::Handing::no_gate, crate::proofs::Handing::outside, crate::proofs::Handing::inside, crate::proofs::Handing::inside_number))]
pub fn command_of(port: u32, value: u32) -> Command
    ensures { result ≡ command_of port value }
{
    match Gate::try_from(port) {
        Ok(gate) if gate.passes(value) => gate.carrying(f32::from_bits(value)),
        _ => Command::Blocked(port),
    }
}
