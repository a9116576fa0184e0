// The refusals of writing (02, L2): those of the reader, and the writer's own.
ghost use Rattle.std.specs.Prelude.{◌≡◌};
ghost use Rattle.writer.specs.Refusals.{number_of, index_of};
ghost use Rattle.writer.specs.declared.refusals.Refusal.TheVariants.{Image};

// Why no image is written: the reader would refuse it, or the buffer is shorter than it.
// The checker has a type of its own with other cases; what is alike is a line each.
#[derive(Clone, Copy, Debug, PartialEq, Eq)]
pub enum Refusal {
    Image(image::Refusal),
    NoRoom,
}

impl From<image::Refusal> for Refusal {
    ghost from_gives = { λ found refusal. refusal ≡ Image found };

    fn from(found: image::Refusal) -> Refusal {
        Refusal::Image(found)
    }
}

impl Refusal {
    // Its number.
    pub fn number(self) -> u8
        ensures { result ≡ number_of self }
    {
        match self {
            Refusal::Image(refusal) => refusal.number(),
            Refusal::NoRoom => 12,
        }
    }

    // The index of the instruction or region at fault; 0 where none is named.
    pub fn index(self) -> usize
        ensures { result ≡ index_of self }
    {
        match self {
            Refusal::Image(refusal) => refusal.index(),
            _ => 0,
        }
    }
}
