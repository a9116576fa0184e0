// The registers and V words of a state as plain words, which a run is lent, and back.
ghost use Rattle.std.specs.Prelude.{◌≡◌, ℕ, ◌<◌, map, slice_index_or};

use rules::{Data, Shadow};
use std::array;

// Data or a V word, which is a plain word in a wrapper.
pub trait Plain: Copy {
    ghost plain: { Self → ℕ };

    fn to_plain(self) -> u32
        ensures { result ≡ plain self };

    fn from_plain(word: u32) -> Self
        ensures { plain result ≡ word };
}

impl Plain for Data {
    ghost plain = { λ x. x.0 };

    fn to_plain(self) -> u32 {
        self.0
    }

    fn from_plain(word: u32) -> Data {
        Data(word)
    }
}

impl Plain for Shadow {
    ghost plain = { λ v. v.0 };

    fn to_plain(self) -> u32 {
        self.0
    }

    fn from_plain(word: u32) -> Shadow {
        Shadow(word)
    }
}

// The plain words of sixteen: of data `data_words`, of V words `shadow_words`.
pub fn to_words<W: Plain>(values: [W; 16]) -> [u32; 16]
    ensures { result ≡ map W.plain values }
{
    array::from_fn(
        |k| -> u32
            requires { k < 16 }
            ensures { (d : W) → result ≡ W.plain (slice_index_or values k d) }
        { values[k].to_plain() },
    )
}

// And back.
pub fn from_words<W: Plain>(words: [u32; 16]) -> [W; 16]
    ensures { map W.plain result ≡ words }
{
    array::from_fn(
        |k| -> W
            requires { k < 16 }
            ensures { (d : ℕ) → W.plain result ≡ slice_index_or words k d }
        { W::from_plain(words[k]) },
    )
}
