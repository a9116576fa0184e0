// What each operation does to data (document 01, the instruction table).
ghost use Rattle.std.specs.Prelude.{◌≡◌};
ghost use Rattle.rules.specs.Actions.{mov_of, add_of, sub_of, mul_of, and_of, or_of, xor_of, shl_of, shr_of, sar_of, eq_of, ltu_of};

use super::{Data, words};

// MOV: copy.
pub fn mov(y: Data) -> Data
    ensures { result.0 ≡ mov_of y.0 }
{
    y
}

pub fn add(x: Data, y: Data) -> Data
    ensures { result.0 ≡ add_of x.0 y.0 }
{
    Data(x.0.wrapping_add(y.0))
}

pub fn sub(x: Data, y: Data) -> Data
    ensures { result.0 ≡ sub_of x.0 y.0 }
{
    Data(x.0.wrapping_sub(y.0))
}

pub fn mul(x: Data, y: Data) -> Data
    ensures { result.0 ≡ mul_of x.0 y.0 }
{
    Data(x.0.wrapping_mul(y.0))
}

pub fn and(x: Data, y: Data) -> Data
    ensures { result.0 ≡ and_of x.0 y.0 }
{
    Data(x.0 & y.0)
}

pub fn or(x: Data, y: Data) -> Data
    ensures { result.0 ≡ or_of x.0 y.0 }
{
    Data(x.0 | y.0)
}

pub fn xor(x: Data, y: Data) -> Data
    ensures { result.0 ≡ xor_of x.0 y.0 }
{
    Data(x.0 ^ y.0)
}

// A shift's amount is the second operand modulo the bits of a word.
pub fn shl(x: Data, y: Data) -> Data
    ensures { result.0 ≡ shl_of x.0 y.0 }
{
    Data(x.0.wrapping_shl(y.0))
}

pub fn shr(x: Data, y: Data) -> Data
    ensures { result.0 ≡ shr_of x.0 y.0 }
{
    Data(x.0.wrapping_shr(y.0))
}

pub fn sar(x: Data, y: Data) -> Data
    ensures { result.0 ≡ sar_of x.0 y.0 }
{
    Data(words::shift_right_signed(x.0, y.0))
}

pub fn eq(x: Data, y: Data) -> Data
    ensures { result.0 ≡ eq_of x.0 y.0 }
{
    Data(if x == y { 1 } else { 0 })
}

pub fn ltu(x: Data, y: Data) -> Data
    ensures { result.0 ≡ ltu_of x.0 y.0 }
{
    Data(if x.0 < y.0 { 1 } else { 0 })
}
