// Cases on words. Each line is one case, in hexadecimal: operands with their V words, "same" where
// both are one register, then the result's data and V word.
use super::rows::Shown;
use rules::bytes::{byte, join4, swiden, zwiden};
use rules::{Data, Operation, Shadow, Value, actions, shadows};
use std::io;
use std::io::Write;

// An operation, whether both operands are one register, and x, v, y and w.
type Case = (Operation, bool, u32, u32, u32, u32);

// The rows of rules/specs/Pinned.antt in its order: first those that document 01 pins, ADD's and EQ's as
// 02 amends it, then ours.
const TABLE: [Case; 78] = [
    (Operation::Add, false, 0, 0x100, 0, 0),
    (Operation::And, false, 0xf, 0, 0xffff_ffff, 0xffff_ffff),
    (Operation::And, false, 0xffff_ffff, 0xffff_ffff, 1, 0),
    (Operation::Or, false, 0xf, 0, 0, 0xffff_ffff),
    (
        Operation::Xor,
        true,
        0x1234_5678,
        0xffff_ffff,
        0x1234_5678,
        0xffff_ffff,
    ),
    (Operation::Shl, false, 0x81, 0x81, 4, 0),
    (Operation::Shl, false, 0x81, 0x81, 32, 0),
    (Operation::Sar, false, 0x8000_0000, 0x8000_0000, 4, 0),
    (Operation::Shr, false, 0x8000_0000, 0x8000_0000, 4, 0),
    (Operation::Shl, false, 1, 0, 0, 0x20),
    (Operation::Shr, false, 1, 0, 0, 0x20),
    (Operation::Sar, false, 1, 0, 0, 0x20),
    (Operation::Eq, false, 0, 0x80, 0, 0),
    (Operation::Eq, false, 1, 0x80, 0, 0),
    (Operation::Mul, false, 0xffff_ffff, 0, 0xffff_ffff, 0),
    (Operation::Add, false, 0xffff_ffff, 0, 0x8000_0001, 0),
    (Operation::Add, false, 1, 0, 0, 3),
    (Operation::Add, false, 0x36, 2, 0xa, 0),
    (Operation::Add, false, 0xffff_fe00, 0x100, 0x100, 0),
    (Operation::Add, false, 0x1234_5678, 0xff00, 0x100, 0),
    (Operation::Add, false, 5, 1, 2, 4),
    (Operation::Add, false, 4, 3, 4, 5),
    (Operation::Add, false, 0, 0x10, 0, 0x10),
    (
        Operation::Add,
        false,
        0x4000_0000,
        0x4000_0000,
        0x4000_0000,
        0,
    ),
    (Operation::Add, false, 0, 0x8000_0000, 0x8000_0000, 0),
    (Operation::Add, false, 0, 0x8000_0000, 0, 0x8000_0000),
    (Operation::Add, true, 1, 1, 1, 1),
    (Operation::Sub, false, 0, 0, 1, 0x10),
    (Operation::Sub, false, 0, 0, 0, 0x10),
    (Operation::Sub, false, 0x40, 0, 2, 2),
    (Operation::Sub, false, 0x40, 0, 0, 3),
    (Operation::Sub, false, 0x12, 2, 2, 0),
    (Operation::Sub, false, 4, 0xb, 1, 0),
    (Operation::Sub, false, 0x12, 2, 1, 4),
    (Operation::Sub, false, 8, 5, 6, 3),
    (
        Operation::Sub,
        false,
        0x6000_0000,
        0x2000_0000,
        0x2000_0000,
        0x2000_0000,
    ),
    (Operation::Sub, false, 0, 0x4000_0000, 0x4000_0000, 0),
    (Operation::Sub, false, 0, 0, 0, 0x8000_0000),
    (Operation::Sub, false, 0, 0x8000_0000, 0, 0x8000_0000),
    (Operation::Sub, true, 0, 1, 0, 1),
    (Operation::Sub, true, 5, 0x10, 5, 0x10),
    (Operation::Mul, false, 3, 0x8000_0000, 5, 0),
    (Operation::Mul, false, 0, 0, 5, 1),
    (Operation::Or, false, 0, 0xffff_ffff, 1, 0),
    (Operation::Xor, false, 0xff00, 0xf0, 0x0ff0, 0xf),
    (Operation::Shl, false, 3, 3, 31, 0),
    (
        Operation::Shr,
        false,
        0x8000_0000,
        0x8000_0000,
        0xffff_ffff,
        0,
    ),
    (Operation::Sar, false, 0x4000_0000, 0x4000_0000, 30, 0),
    (Operation::Shl, false, 1, 0, 0, 0x8000_0000),
    (Operation::And, true, 0xf0f0, 0xff00, 0xf0f0, 0xff00),
    (Operation::Or, true, 0xf0f0, 0xff00, 0xf0f0, 0xff00),
    (Operation::Mul, true, 6, 4, 6, 4),
    (Operation::Shl, true, 0x21, 0, 0x21, 0),
    (Operation::Shr, true, 0x22, 0, 0x22, 0),
    (Operation::Sar, true, 0x8000_0001, 0, 0x8000_0001, 0),
    (Operation::Eq, false, 0, 0, 0x8000_0000, 0),
    (Operation::Eq, false, 7, 0, 7, 0),
    (Operation::Eq, false, 1, 0, 1, 0x8000_0000),
    (Operation::Eq, false, 0, 0, 1, 0x8000_0000),
    (Operation::Eq, false, 0, 0x80, 1, 0),
    (Operation::Eq, false, 0x8000_0000, 0x80, 0, 0),
    (Operation::Eq, false, 0, 0x80, 0x8000_0000, 0),
    (Operation::Eq, false, 1, 0, 0, 0x80),
    (Operation::Eq, false, 0x0100_0000, 0, 0, 0x80),
    (Operation::Eq, false, 0, 0, 0x100, 0x80),
    (Operation::Eq, false, 0x81, 0x80, 0, 0),
    (Operation::Eq, false, 0x80, 0x80, 0, 0),
    (Operation::Eq, false, 0, 0, 0x80, 0x80),
    (Operation::Eq, false, 0x50, 0xf0, 0x05, 0x0f),
    (Operation::Eq, false, 0x150, 0xf0, 0x05, 0x0f),
    (Operation::Eq, true, 7, 0x80, 7, 0x80),
    (Operation::Eq, true, 7, 0, 7, 0),
    (Operation::Ltu, false, 1, 0, 0x8000_0000, 0),
    (Operation::Ltu, false, 1, 0, 1, 0x8000_0000),
    (Operation::Ltu, false, 0, 0x80, 1, 0),
    (Operation::Ltu, false, 0, 0x80, 0x8000_0000, 0),
    (Operation::Ltu, true, 1, 1, 1, 1),
    (Operation::Ltu, true, 7, 0, 7, 0),
];

// Sizes, and words whose bytes from there on their sign fills.
const WIDENED: [(u32, u32); 10] = [
    (1, 0x80),
    (1, 0x7f),
    (2, 0x8000),
    (2, 0x7f80),
    (2, 0xff),
    (3, 0x0080_0000),
    (4, 0x8000_0000),
    (5, 0xffff_ffff),
    (0, 1),
    (1, 0x100),
];

fn value(data: u32, shadow: u32) -> Value {
    Value {
        data: Data(data),
        shadow: Shadow(shadow),
    }
}

pub fn table(out: &mut impl Write) -> io::Result<()> {
    for (op, same, x, v, y, w) in TABLE {
        let z = rules::action(op, Data(x), Data(y));
        let u = rules::shadow_of(op, same, value(x, v), value(y, w));
        let note = if same { " same" } else { "" };
        writeln!(
            out,
            "{} x {x:08x} v {v:08x} y {y:08x} w {w:08x}{note}: {:08x} V {:08x}",
            Shown(op),
            z.0,
            u.0
        )?;
    }
    Ok(())
}

// What has no two operands: Left, MOV, the bytes of a word, and their sign.
pub fn others(out: &mut impl Write) -> io::Result<()> {
    for v in [0, 0x8000_0000] {
        let u = shadows::left(Shadow(v));
        writeln!(out, "Left {v:08x}: {:08x}", u.0)?;
    }
    let (y, v) = (0xdead_beef, 0x0f0f_0f0f);
    let z = actions::mov(Data(y));
    let u = shadows::mov(Shadow(v));
    writeln!(out, "MOV y {y:08x} v {v:08x}: {:08x} V {:08x}", z.0, u.0)?;
    let x = join4(0xaa, 0xbb, 0xcc, 0xdd);
    let third = zwiden(byte(x, 3));
    let fourth = zwiden(byte(x, 4));
    writeln!(
        out,
        "bytes make {x:08x} of which byte 3 is {third:08x} and byte 4 {fourth:08x}"
    )?;
    for (size, x) in WIDENED {
        let z = swiden(size, x);
        writeln!(out, "SWiden of {size} bytes {x:08x}: {z:08x}")?;
    }
    Ok(())
}
