// The kinds of report (document 01, Shadow rules), and the word that each is in a list.
ghost use Rattle.std.specs.Prelude.{◌≡◌};
ghost use Rattle.checker.specs.Pieces.{kind_number};

// An undefined address, condition or output is used; a load or a store meets an unaddressable byte.
#[derive(Clone, Copy, Debug, PartialEq, Eq)]
pub enum Kind {
    UndefinedAddress = 1,
    UndefinedCondition = 2,
    UnaddressableLoad = 3,
    UnaddressableStore = 4,
    UndefinedOutput = 5,
}

impl From<Kind> for u32 {
    ghost from_gives = { λ kind word. word ≡ kind_number kind };

    fn from(kind: Kind) -> u32 {
        kind as u32
    }
}
