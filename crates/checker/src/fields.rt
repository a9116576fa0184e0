// An instruction where it stands, in the image's code: its fields, and what the op of a load or store
// says. A step reads no more of its instruction than it uses, and a run keeps no copy of the program.
ghost use Rattle.std.specs.Prelude.{◌≡◌, ◌/◌, ◌<◌, length};
ghost use Rattle.image.specs.Format.{instruction_size};
ghost use Rattle.image.specs.Encoding.{ops};
ghost use Rattle.checker.specs.Pieces.{ByteIs, ImmIs, one_of, store_ops, width_number, width_of, widening_of};

use image::format::INSTRUCTION;
use image::{Widening, Width, ops};
use rules::bytes::join4;

// The bytes of an instruction: op, d, a, b, and the first of imm.
const OP: usize = 0;

const D: usize = 1;

const A: usize = 2;

const B: usize = 3;

const IMM: usize = 4;

// Where an instruction stands in the code: there is one at the index.
#[derive(Clone, Copy)]
pub struct Place<'a> {
    pub code: &'a [u8],
    pub index: u32,
    ghost there: { index < length code.now / instruction_size },
}

impl Place<'_> {
    fn field(self, k: usize) -> u8
        requires { k < instruction_size }
        ensures { ByteIs self.entry.code.now self.entry.index k result }
    {
        self.code[INSTRUCTION * self.index as usize + k]
    }

    pub fn op(self) -> u8
        ensures { ByteIs self.entry.code.now self.entry.index 0 result }
    {
        self.field(OP)
    }

    pub fn d(self) -> u8
        ensures { ByteIs self.entry.code.now self.entry.index 1 result }
    {
        self.field(D)
    }

    pub fn a(self) -> u8
        ensures { ByteIs self.entry.code.now self.entry.index 2 result }
    {
        self.field(A)
    }

    pub fn b(self) -> u8
        ensures { ByteIs self.entry.code.now self.entry.index 3 result }
    {
        self.field(B)
    }

    // As `image` reads a word: a function for both would be public, and test for the room that is here.
    #[tactic(auto, unfolding(image::specs::Words::nth_word, rules::specs::Bytes::joined))]
    pub fn imm(self) -> u32
        ensures { ImmIs self.entry.code.now self.entry.index result }
    {
        let at = INSTRUCTION * self.index as usize + IMM;
        join4(
            self.code[at],
            self.code[at + 1],
            self.code[at + 2],
            self.code[at + 3],
        )
    }
}

// ---- loads and stores
pub fn is_store(op: u8) -> bool
    ensures { result ≡ one_of store_ops op }
{
    (op == ops::ST8) | (op == ops::ST32) | (op == ops::ST16)
}

// Two bits for each op: 1 where it moves a word, 2 where a half word.
const WIDTHS: u64 = 1 << (2 * ops::LD32 as u64)
    | 1 << (2 * ops::ST32 as u64)
    | 2 << (2 * ops::LD16 as u64)
    | 2 << (2 * ops::LDS16 as u64)
    | 2 << (2 * ops::ST16 as u64);

// The two bits of an op, of which there are 25, as the reader saw (a type for them would be taken apart by
// each match). They are shifted out, as a match on the
// op takes several jumps.
fn width_number(op: u8) -> u64
    requires { op < ops }
    ensures { result ≡ width_number op }
{
    (WIDTHS >> (2 * op as u64)) % 4
}

pub fn width_of(op: u8) -> Width
    requires { op < ops }
    ensures { result ≡ width_of op }
{
    let number = width_number(op);
    match number {
        0 => Width::Byte,
        1 => Width::Word,
        _ => Width::Half,
    }
}

pub fn widening_of(op: u8) -> Widening
    ensures { result ≡ widening_of op }
{
    match op {
        ops::LDS8 | ops::LDS16 => Widening::Sign,
        _ => Widening::Zero,
    }
}
