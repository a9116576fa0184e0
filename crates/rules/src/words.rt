// Plain words: what data words and V words have in common.
ghost use Rattle.std.specs.Prelude.{◌≡◌, ◌<◌};
ghost use Rattle.rules.specs.Word.{copies};
ghost use Rattle.rules.specs.Actions.{freed, sar_of};

// The place of the top bit of a word.
const TOP: u32 = 31;

// The mask where bit j of x is set, else 0.
#[tactic(auto, unfolding(crate::specs::Word::bit, crate::specs::Word::copies))]
pub fn copies_of(j: u32, mask: u32, x: u32) -> u32
    requires { j < 32 }
    ensures { result ≡ copies j mask x }
{
    if (x >> j) % 2 == 1 { mask } else { 0 }
}

// The places that a right shift leaves free.
fn freed_by(y: u32) -> u32
    ensures { result ≡ freed y }
{
    !u32::MAX.wrapping_shr(y)
}

// The places that come free are filled with the top bit, by a mask.
pub fn shift_right_signed(x: u32, y: u32) -> u32
    ensures { result ≡ sar_of x y }
{
    x.wrapping_shr(y) | copies_of(TOP, freed_by(y), x)
}
