// The kinds of region (document 01, What a card holds), and the words that say them.
ghost use Rattle.std.specs.Prelude.{◌≡◌};
ghost use Rattle.image.specs.Regions.{kind_of, kind_word};

// The words of the two kinds.
const FILLED: u32 = 1;

const UNDEFINED: u32 = 2;

// What a region is at the beginning: the image has its bytes, or they are addressable and undefined. A
// region of any other word is refused.
#[derive(Clone, Copy, Debug, PartialEq, Eq)]
pub enum Kind {
    Filled,
    Undefined,
    Other(u32),
}

impl From<u32> for Kind {
    ghost from_gives = { λ word kind. kind ≡ kind_of word };

    fn from(word: u32) -> Kind {
        match word {
            FILLED => Kind::Filled,
            UNDEFINED => Kind::Undefined,
            _ => Kind::Other(word),
        }
    }
}

impl From<Kind> for u32 {
    ghost from_gives = { λ kind word. word ≡ kind_word kind };

    fn from(kind: Kind) -> u32 {
        match kind {
            Kind::Filled => FILLED,
            Kind::Undefined => UNDEFINED,
            Kind::Other(word) => word,
        }
    }
}
