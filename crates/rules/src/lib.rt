// The bottom of the checker: the two kinds of word, what each operation does to data, and the
// shadow rule that says which bits of the result are undefined. Every function is total and equals
// its definition in specs/.
#![tactic(auto)]

ghost use Rattle.std.specs.Prelude.{◌≡◌};
ghost use Rattle.rules.specs.Operations.{action_of, shadow_of};

pub mod actions; // actions.rt: the operations on data
pub mod bytes; // bytes.rt: the bytes of a word
pub mod shadows; // shadows.rt: the shadow rules
mod words; // words.rt: what data and V bits have in common

// A data word.
#[derive(Clone, Copy, PartialEq, Eq)]
pub struct Data(pub u32);

// A V word: a bit is 1 where the data bit is undefined, 0 where it is defined.
#[derive(Clone, Copy, PartialEq, Eq)]
pub struct Shadow(pub u32);

// A word as the machine has it: its data and its V word.
#[derive(Clone, Copy, PartialEq, Eq)]
pub struct Value {
    pub data: Data,
    pub shadow: Shadow,
}

// The operations on two operands; document 01's ops 2 to 12, in its order.
#[derive(Clone, Copy, PartialEq, Eq)]
pub enum Operation {
    Add,
    Sub,
    Mul,
    And,
    Or,
    Xor,
    Shl,
    Shr,
    Sar,
    Eq,
    Ltu,
}

// What an operation does to data. A match, since a table of closures would name each function as well,
// and the compiler lays the one of a known operation into its caller.
#[tactic(auto, unfolding(crate::specs::Operations::action_of))]
pub fn action(op: Operation, x: Data, y: Data) -> Data
    ensures { result.0 ≡ action_of op x.0 y.0 }
{
    match op {
        Operation::Add => actions::add(x, y),
        Operation::Sub => actions::sub(x, y),
        Operation::Mul => actions::mul(x, y),
        Operation::And => actions::and(x, y),
        Operation::Or => actions::or(x, y),
        Operation::Xor => actions::xor(x, y),
        Operation::Shl => actions::shl(x, y),
        Operation::Shr => actions::shr(x, y),
        Operation::Sar => actions::sar(x, y),
        Operation::Eq => actions::eq(x, y),
        Operation::Ltu => actions::ltu(x, y),
    }
}

// What an operation does to V bits; a match for the same reason. same: both operands are one register.
#[tactic(auto, unfolding(crate::specs::Operations::shadow_of))]
pub fn shadow_of(op: Operation, same: bool, x: Value, y: Value) -> Shadow
    ensures { result.0 ≡ shadow_of op same x.data.0 x.shadow.0 y.data.0 y.shadow.0 }
{
    match op {
        Operation::Add => shadows::add(same, x, y),
        Operation::Sub => shadows::sub(same, x, y),
        Operation::Mul => shadows::mul(same, x, y),
        Operation::And => shadows::and(same, x, y),
        Operation::Or => shadows::or(same, x, y),
        Operation::Xor => shadows::xor(same, x, y),
        Operation::Shl => shadows::shl(same, x, y),
        Operation::Shr => shadows::shr(same, x, y),
        Operation::Sar => shadows::sar(same, x, y),
        Operation::Eq => shadows::eq(same, x, y),
        Operation::Ltu => shadows::ltu(same, x, y),
    }
}
