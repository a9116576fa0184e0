// The bits of a rate.
ghost use Rattle.std.specs.Prelude.{◌≡◌};
ghost use Rattle.std.specs.Float.{binary32};
ghost use Rattle.std.specs.Float.Ieee.{to_bits};

// What is not a number has many patterns, and here this one; `f32::to_bits` asks for a number.
const NAN: u32 = 0x7FC0_0000;

// Of any float. A command that is handed on carries a number, whose bits `f32::to_bits` gives as well,
// without a comparison.
pub fn bits_of(rate: f32) -> u32
    ensures { result ≡ to_bits binary32 rate }
{
    if rate == rate {
        return f32::to_bits(rate);
    }
    NAN
}
