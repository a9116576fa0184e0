// The stop reasons (document 01, A run, its lists and its end), with their numbers.
ghost use Rattle.std.specs.Prelude.{◌≡◌};
ghost use Rattle.checker.specs.Reasons.{reason_number};

// Why a run ended.
#[derive(Clone, Copy, Debug, PartialEq, Eq)]
pub enum Reason {
    Stopped,
    PastEnd,
    NoBudget,
    NoPlace,
}

impl Reason {
    // Its number.
    pub fn number(self) -> u8
        ensures { result ≡ reason_number self }
    {
        match self {
            Reason::Stopped => 1,
            Reason::PastEnd => 2,
            Reason::NoBudget => 3,
            Reason::NoPlace => 4,
        }
    }
}
