// The bytes of a word, and the word of some bytes, the lowest first: for data and V bits alike.
ghost use Rattle.std.specs.Prelude.{◌≡◌, ◌<◌, [], ◌∷◌};
ghost use Rattle.rules.specs.Shadows.{zwiden, above, swiden};
ghost use Rattle.rules.specs.Bytes.{byte_of, join_of};

use super::words;

// ZWiden of a byte to a word: the new places are 0, which of V bits says defined.
pub fn zwiden(b: u8) -> u32
    ensures { result ≡ zwiden b }
{
    u32::from(b)
}

// The places of a word above so many bytes.
fn places_above(size: u32) -> u32
    requires { size < 4 }
    ensures { result ≡ above size }
{
    !((1 << (8 * size)) - 1)
}

// SWiden of a number of so many bytes: copies of their top bit are laid over the places above.
pub fn swiden(size: u32, x: u32) -> u32
    ensures { result ≡ swiden size x }
{
    if 4 <= size {
        return x;
    }
    let top = (8 * size).saturating_sub(1);
    x | words::copies_of(top, places_above(size), x)
}

// Byte k of a word; 0 past its four. By a shift: to take it out of `to_le_bytes` needs the same test.
pub fn byte(x: u32, k: u32) -> u8
    ensures { result ≡ byte_of k x }
{
    if 4 <= k {
        return 0;
    }
    ((x >> (8 * k)) % 256) as u8
}

// The word of four bytes.
pub fn join4(b0: u8, b1: u8, b2: u8, b3: u8) -> u32
    ensures { result ≡ join_of (b0 ∷ b1 ∷ b2 ∷ b3 ∷ []) }
{
    u32::from_le_bytes([b0, b1, b2, b3])
}
