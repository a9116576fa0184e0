// The refusal that is the commands' own (02, L7).
ghost use Rattle.std.specs.Prelude.{◌≡◌};
ghost use Rattle.commands.specs.Answers.{wrong_outputs};

const WRONG_OUTPUTS: u8 = 13;

// The list is not one of outputs made, or has none of that number.
#[derive(Clone, Copy, Debug, PartialEq, Eq)]
pub struct WrongOutputs;

impl WrongOutputs {
    // Its number.
    pub fn number(self) -> u8
        ensures { result ≡ wrong_outputs }
    {
        WRONG_OUTPUTS
    }
}
