// The shadow rules (document 01, "Shadow rules"; ADD and SUB: 02, L13; EQ: 02, L4). The first three
// functions are abstract operations of the Memcheck paper, under its names; ZWiden and SWiden are in
// bytes.rt. The rules of the operations on two operands have one signature: same says that both operands,
// x and y, are one register. A rule may leave some of these unread.
ghost use Rattle.std.specs.Prelude.{◌≡◌, if◌then◌else◌, ◌==◌, bit_or, bit_xor, nat_eq};
ghost use Rattle.rules.specs.Word.{all_ones, inverted};
ghost use Rattle.rules.specs.Shadows.{uifu, left_of, pcast, low, high, mov_v, add_v, sub_v, mul_v, and_v, or_v, xor_v, shl_v, shr_v, sar_v, apart, eq_v, ltu_v};

use super::{Data, Shadow, Value, actions, words};

// UifU: undefined where either is.
pub fn uifu(v: Shadow, w: Shadow) -> Shadow
    ensures { result.0 ≡ uifu v.0 w.0 }
{
    Shadow(v.0 | w.0)
}

// Left: undefined from the lowest undefined bit upwards.
pub fn left(v: Shadow) -> Shadow
    ensures { result.0 ≡ left_of v.0 }
{
    Shadow(v.0 | 0u32.wrapping_sub(v.0))
}

// PCast to one bit: undefined if any bit of v is.
pub fn pcast_bit(v: Shadow) -> Shadow
    ensures { result.0 ≡ pcast 1 v.0 }
{
    Shadow(if v == Shadow(0) { 0 } else { 1 })
}

impl Value {
    // The least word that an operand can be: its data with the undefined bits 0.
    fn low(self) -> Data
        ensures { result.0 ≡ low self.data.0 self.shadow.0 }
    {
        Data(self.data.0 & !self.shadow.0)
    }

    // The greatest: its data with the undefined bits 1.
    fn high(self) -> Data
        ensures { result.0 ≡ high self.data.0 self.shadow.0 }
    {
        Data(self.data.0 | self.shadow.0)
    }

    // The operand with each bit of its data flipped.
    fn flipped(self) -> Value
        ensures data { result.data.0 ≡ inverted self.data.0 }
        ensures shadow { result.shadow ≡ self.shadow }
    {
        Value {
            data: Data(!self.data.0),
            shadow: self.shadow,
        }
    }
}

// No bit of either operand is undefined, as with most operands.
fn both_defined(x: Value, y: Value) -> bool
    ensures { result ≡ (uifu x.shadow.0 y.shadow.0 == 0) }
{
    uifu(x.shadow, y.shadow) == Shadow(0)
}

// Undefined where either operand is, and where the results differ at the two ends of what the operands
// can be. Both results are wrapped, so that either may be the smaller number.
fn spread(x: Value, y: Value, least: Data, greatest: Data) -> Shadow
    ensures { result.0 ≡ bit_or (uifu x.shadow.0 y.shadow.0) (bit_xor least.0 greatest.0) }
{
    Shadow(uifu(x.shadow, y.shadow).0 | (least.0 ^ greatest.0))
}

// The bits that are defined on both sides and differ.
fn apart(x: Value, y: Value) -> u32
    ensures { result ≡ apart x.data.0 x.shadow.0 y.data.0 y.shadow.0 }
{
    (x.data.0 ^ y.data.0) & !uifu(x.shadow, y.shadow).0
}

// An undefined bit of the amount leaves nothing of a shift defined; u is V shifted by the amount.
fn shifted(u: u32, w: Shadow) -> Shadow
    ensures { result.0 ≡ (if nat_eq w.0 0 then u else all_ones) }
{
    Shadow(if w == Shadow(0) { u } else { u32::MAX })
}

// MOV: the V word goes along.
pub fn mov(v: Shadow) -> Shadow
    ensures { result.0 ≡ mov_v v.0 }
{
    v
}

// ADD, SUB and MUL give V 0 at once where no bit of either operand is undefined (02, L3). ADD and SUB
// differ in which ends they take, and share the rest: one function of both would be no shorter.
pub fn add(same: bool, x: Value, y: Value) -> Shadow
    ensures { result.0 ≡ add_v same x.data.0 x.shadow.0 y.data.0 y.shadow.0 }
{
    if both_defined(x, y) {
        Shadow(0)
    } else {
        let least = actions::add(x.low(), y.low());
        let greatest = actions::add(x.high(), y.high());
        spread(x, y, least, greatest)
    }
}

pub fn sub(same: bool, x: Value, y: Value) -> Shadow
    ensures { result.0 ≡ sub_v same x.data.0 x.shadow.0 y.data.0 y.shadow.0 }
{
    if both_defined(x, y) {
        Shadow(0)
    } else {
        let least = actions::sub(x.low(), y.high());
        let greatest = actions::sub(x.high(), y.low());
        spread(x, y, least, greatest)
    }
}

pub fn mul(same: bool, x: Value, y: Value) -> Shadow
    ensures { result.0 ≡ mul_v same x.data.0 x.shadow.0 y.data.0 y.shadow.0 }
{
    if both_defined(x, y) {
        Shadow(0)
    } else {
        left(uifu(x.shadow, y.shadow))
    }
}

pub fn and(same: bool, x: Value, y: Value) -> Shadow
    ensures { result.0 ≡ and_v same x.data.0 x.shadow.0 y.data.0 y.shadow.0 }
{
    Shadow(uifu(x.shadow, y.shadow).0 & x.high().0 & y.high().0)
}

pub fn or(same: bool, x: Value, y: Value) -> Shadow
    ensures { result.0 ≡ or_v same x.data.0 x.shadow.0 y.data.0 y.shadow.0 }
{
    and(same, x.flipped(), y.flipped())
}

pub fn xor(same: bool, x: Value, y: Value) -> Shadow
    ensures { result.0 ≡ xor_v same x.data.0 x.shadow.0 y.data.0 y.shadow.0 }
{
    Shadow(if same { 0 } else { x.shadow.0 | y.shadow.0 })
}

// The three shifts name their own: a rule that took the shift as a closure would be no shorter.
pub fn shl(same: bool, x: Value, y: Value) -> Shadow
    ensures { result.0 ≡ shl_v same x.data.0 x.shadow.0 y.data.0 y.shadow.0 }
{
    shifted(x.shadow.0.wrapping_shl(y.data.0), y.shadow)
}

pub fn shr(same: bool, x: Value, y: Value) -> Shadow
    ensures { result.0 ≡ shr_v same x.data.0 x.shadow.0 y.data.0 y.shadow.0 }
{
    shifted(x.shadow.0.wrapping_shr(y.data.0), y.shadow)
}

pub fn sar(same: bool, x: Value, y: Value) -> Shadow
    ensures { result.0 ≡ sar_v same x.data.0 x.shadow.0 y.data.0 y.shadow.0 }
{
    shifted(words::shift_right_signed(x.shadow.0, y.data.0), y.shadow)
}

pub fn eq(same: bool, x: Value, y: Value) -> Shadow
    ensures { result.0 ≡ eq_v same x.data.0 x.shadow.0 y.data.0 y.shadow.0 }
{
    let settled = apart(x, y) != 0;
    let defined = both_defined(x, y);
    Shadow(if settled | defined { 0 } else { 1 })
}

pub fn ltu(same: bool, x: Value, y: Value) -> Shadow
    ensures { result.0 ≡ ltu_v same x.data.0 x.shadow.0 y.data.0 y.shadow.0 }
{
    pcast_bit(uifu(x.shadow, y.shadow))
}
