// The refusals of the calls (document 01, When the bench says no): those of reading, and after them
// those of beginning and running, 8 to 11.
ghost use Rattle.std.specs.Prelude.{◌≡◌};
ghost use Rattle.checker.specs.Refusals.{number_of, index_of};
ghost use Rattle.checker.specs.declared.refusals.Refusal.TheVariants.{Image};

// Why a call is refused. The writer has a type of its own with other cases; what is alike is a line each.
#[derive(Clone, Copy, Debug, PartialEq, Eq)]
pub enum Refusal {
    Image(image::Refusal),
    WrongSize,
    TooManySteps,
    WrongMark,
    WrongCount,
}

impl Refusal {
    // Its number.
    pub fn number(self) -> u8
        ensures { result ≡ number_of self }
    {
        match self {
            Refusal::Image(refusal) => refusal.number(),
            Refusal::WrongSize => 8,
            Refusal::TooManySteps => 9,
            Refusal::WrongMark => 10,
            Refusal::WrongCount => 11,
        }
    }

    // The index of the instruction or region at fault; 0 where none is named.
    pub fn index(self) -> usize
        ensures { result ≡ index_of self }
    {
        match self {
            Refusal::Image(refusal) => refusal.index(),
            _ => 0,
        }
    }
}

impl From<image::Refusal> for Refusal {
    ghost from_gives = { λ found made. made ≡ Image found };

    fn from(found: image::Refusal) -> Refusal {
        Refusal::Image(found)
    }
}
