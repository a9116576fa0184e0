// The refusals of reading (document 01, When the bench says no): the number of each, and the index at
// fault, where it names one.
ghost use Rattle.std.specs.Prelude.{◌≡◌};
ghost use Rattle.image.specs.Refusals.{number_of, index_of};

// Why an image is refused.
#[derive(Clone, Copy, Debug, PartialEq, Eq)]
pub enum Refusal {
    TooShort,
    WrongMagic,
    OutOfLimits,
    WrongLayout,
    BadInstruction(usize),
    BadRegion(usize),
    WrongSum,
}

impl Refusal {
    // Its number.
    pub fn number(self) -> u8
        ensures { result ≡ number_of self }
    {
        match self {
            Refusal::TooShort => 1,
            Refusal::WrongMagic => 2,
            Refusal::OutOfLimits => 3,
            Refusal::WrongLayout => 4,
            Refusal::BadInstruction(_) => 5,
            Refusal::BadRegion(_) => 6,
            Refusal::WrongSum => 7,
        }
    }

    // The index of the instruction or region at fault; 0 where none is named.
    pub fn index(self) -> usize
        ensures { result ≡ index_of self }
    {
        match self {
            Refusal::BadInstruction(index) | Refusal::BadRegion(index) => index,
            _ => 0,
        }
    }
}
