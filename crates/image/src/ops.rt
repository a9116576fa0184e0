// The ops by their names (document 01, the table of instructions; 21 to 24: 02, L1), and the mark of a
// literal. They are bytes of an image, and numbers for that reason: `row_of` in rows.rt makes an enum of
// them.
pub const STOP: u8 = 0;

pub const MOV: u8 = 1;

pub const ADD: u8 = 2;

pub const SUB: u8 = 3;

pub const MUL: u8 = 4;

pub const AND: u8 = 5;

pub const OR: u8 = 6;

pub const XOR: u8 = 7;

pub const SHL: u8 = 8;

pub const SHR: u8 = 9;

pub const SAR: u8 = 10;

pub const EQ: u8 = 11;

pub const LTU: u8 = 12;

pub const LD8: u8 = 13;

pub const LD32: u8 = 14;

pub const ST8: u8 = 15;

pub const ST32: u8 = 16;

pub const JNZ: u8 = 17;

pub const EMIT: u8 = 18;

pub const OPEN: u8 = 19;

pub const CLOSE: u8 = 20;

pub const LD16: u8 = 21;

pub const LDS8: u8 = 22;

pub const LDS16: u8 = 23;

pub const ST16: u8 = 24;

// In the place of a register's number: the operand is the literal imm.
pub const LITERAL: u8 = 255;
