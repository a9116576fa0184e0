// The program image (document 01: the card): reads any bytes, says the first refusal that applies,
// decodes instructions. Every function that another crate can call is total and equals its
// definition in specs/.
#![tactic(auto)]

use rules::{Data, Operation};

pub mod format; // format.rt: the fixed numbers of an image, and its parts
pub mod ops; // ops.rt: the numbers of the ops
mod entries; // entries.rt: the refusals for instructions and regions
mod kinds; // kinds.rt: the kinds of region
mod reader; // reader.rt: the refusals of reading, and what is handed back
mod refusals; // refusals.rt: the refusals, with their numbers and indices
mod regions; // regions.rt: the regions and their rules
mod rows; // rows.rt: the table of instructions
mod words; // words.rt: words of a slice

pub use entries::{Entries, check_content};
pub use kinds::Kind;
pub use reader::{code, read};
pub use refusals::Refusal;
pub use regions::{end_of, filled_of, region_at, region_keeps};
pub use rows::decode;

// The second operand, B.
#[derive(Clone, Copy, PartialEq, Eq)]
pub enum Operand {
    Register(u8),
    Literal(Data),
}

// How much of memory a load or store moves, in the order of their ops.
#[derive(Clone, Copy)]
pub enum Width {
    Byte,
    Word,
    Half,
}

// What a load puts above the bytes that it moves: zeros, or copies of their top bit.
#[derive(Clone, Copy)]
pub enum Widening {
    Zero,
    Sign,
}

// A decoded instruction. d, a and b are as in document 01's table; OPEN and CLOSE are one case that
// marks a range of bytes as addressable or not.
#[derive(Clone, Copy)]
pub enum Instruction {
    Stop,
    Move {
        d: u8,
        b: Operand,
    },
    Compute {
        op: Operation,
        d: u8,
        a: u8,
        b: Operand,
    },
    Load {
        width: Width,
        widening: Widening,
        d: u8,
        a: u8,
        imm: u32,
    },
    Store {
        width: Width,
        d: u8,
        a: u8,
        imm: u32,
    },
    Jump {
        a: u8,
        target: u32,
    },
    Emit {
        a: u8,
        port: u32,
    },
    Mark {
        addressable: bool,
        start: u32,
        size: u32,
    },
}

// A region: where it starts, how many bytes it has, and its kind.
#[derive(Clone, Copy)]
pub struct Region {
    pub start: u32,
    pub size: u32,
    pub kind: Kind,
}

// M, N, R and D: the bytes of memory; how many instructions, regions and bytes of data there are.
#[derive(Clone, Copy)]
pub struct Header {
    pub m: u32,
    pub n: u32,
    pub r: u32,
    pub d: u32,
}
