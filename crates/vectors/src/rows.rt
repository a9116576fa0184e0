// Instructions, one line each: op, d, a, b and imm, then what they decode to.
use image::{Instruction, Operand, Widening, Width};
use rules::Operation;
use std::io::Write;
use std::{fmt, io};

// A value of another crate, as it is printed here.
#[derive(Clone, Copy)]
pub struct Shown<T>(pub T);

impl fmt::Display for Shown<Operation> {
    fn fmt<W: fmt::Write>(&self, f: &mut fmt::Formatter<W>) -> fmt::Result {
        f.write_str(match self.0 {
            Operation::Add => "ADD",
            Operation::Sub => "SUB",
            Operation::Mul => "MUL",
            Operation::And => "AND",
            Operation::Or => "OR",
            Operation::Xor => "XOR",
            Operation::Shl => "SHL",
            Operation::Shr => "SHR",
            Operation::Sar => "SAR",
            Operation::Eq => "EQ",
            Operation::Ltu => "LTU",
        })
    }
}

impl fmt::Display for Shown<Operand> {
    fn fmt<W: fmt::Write>(&self, f: &mut fmt::Formatter<W>) -> fmt::Result {
        match self.0 {
            Operand::Register(r) => write!(f, "register {r}"),
            Operand::Literal(x) => write!(f, "literal {:08x}", x.0),
        }
    }
}

impl fmt::Display for Shown<Width> {
    fn fmt<W: fmt::Write>(&self, f: &mut fmt::Formatter<W>) -> fmt::Result {
        f.write_str(match self.0 {
            Width::Byte => "8",
            Width::Half => "16",
            Width::Word => "32",
        })
    }
}

impl fmt::Display for Shown<Widening> {
    fn fmt<W: fmt::Write>(&self, f: &mut fmt::Formatter<W>) -> fmt::Result {
        f.write_str(match self.0 {
            Widening::Zero => "LD",
            Widening::Sign => "LDS",
        })
    }
}

impl fmt::Display for Shown<Instruction> {
    fn fmt<W: fmt::Write>(&self, f: &mut fmt::Formatter<W>) -> fmt::Result {
        match self.0 {
            Instruction::Stop => write!(f, "STOP"),
            Instruction::Move { d, b } => write!(f, "MOV d {d} {}", Shown(b)),
            Instruction::Compute { op, d, a, b } => {
                write!(f, "{} d {d} a {a} {}", Shown(op), Shown(b))
            }
            Instruction::Load {
                width,
                widening,
                d,
                a,
                imm,
            } => write!(
                f,
                "{}{} d {d} a {a} imm {imm:08x}",
                Shown(widening),
                Shown(width)
            ),
            Instruction::Store { width, d, a, imm } => {
                write!(f, "ST{} d {d} a {a} imm {imm:08x}", Shown(width))
            }
            Instruction::Jump { a, target } => write!(f, "JNZ a {a} to {target}"),
            Instruction::Emit { a, port } => write!(f, "EMIT a {a} port {port}"),
            Instruction::Mark {
                addressable,
                start,
                size,
            } => {
                let name = if addressable { "OPEN" } else { "CLOSE" };
                write!(f, "{name} start {start} length {size}")
            }
        }
    }
}

impl fmt::Display for Shown<Result<Instruction, usize>> {
    fn fmt<W: fmt::Write>(&self, f: &mut fmt::Formatter<W>) -> fmt::Result {
        match self.0 {
            Ok(instruction) => write!(f, "{}", Shown(instruction)),
            Err(index) => write!(f, "fault at {index}"),
        }
    }
}

const N: u32 = 4;

const M: u32 = 16;

// op, d, a, b and imm.
type Fields = (u8, u8, u8, u8, u32);

const TABLE: [Fields; 98] = [
    // Every row of document 01 at the ends of its fields; then past an end, and an unused field that is not
    // 0. Register 15 as d is in a table of its own, below.
    (0, 0, 0, 0, 0),
    (1, 14, 0, 15, 0),
    (1, 0, 0, 255, 0xdead_beef),
    (2, 1, 2, 3, 0),
    (3, 1, 2, 3, 0),
    (4, 1, 2, 3, 0),
    (5, 1, 2, 3, 0),
    (6, 1, 2, 3, 0),
    (7, 1, 2, 3, 0),
    (8, 1, 2, 3, 0),
    (9, 1, 2, 3, 0),
    (10, 1, 2, 3, 0),
    (11, 1, 2, 3, 0),
    (12, 1, 2, 3, 0),
    (2, 14, 15, 15, 0),
    (2, 1, 2, 255, 9),
    (11, 0, 15, 255, 0x8000_0000),
    (12, 0, 0, 255, 0),
    (13, 14, 0, 0, 0xffff_ffff),
    (14, 0, 15, 0, 0),
    (15, 15, 0, 0, 0x0102_0304),
    (16, 0, 15, 0, 1),
    (17, 0, 15, 0, 3),
    (18, 0, 15, 0, 7),
    (19, 0, 0, 0, 0x0008_0008),
    (19, 0, 0, 0, 0x0001_000f),
    (20, 0, 0, 0, 0x0010_0000),
    (0, 1, 0, 0, 0),
    (0, 0, 1, 0, 0),
    (0, 0, 0, 1, 0),
    (0, 0, 0, 0, 0x8000_0000),
    (1, 16, 0, 0, 0),
    (1, 0, 1, 0, 0),
    (1, 0, 0, 16, 0),
    (1, 0, 0, 254, 0),
    (1, 0, 0, 0, 1),
    (2, 16, 0, 0, 0),
    (2, 0, 16, 0, 0),
    (12, 0, 0, 16, 0),
    (12, 0, 0, 15, 0x8000_0000),
    (13, 16, 0, 0, 0),
    (14, 0, 16, 0, 0),
    (15, 0, 0, 1, 0),
    (16, 255, 0, 0, 0),
    (17, 0, 0, 0, 4),
    (17, 0, 0, 0, 0x8000_0000),
    (17, 1, 0, 0, 0),
    (17, 0, 16, 0, 0),
    (17, 0, 0, 1, 0),
    (18, 0, 0, 0, 8),
    (18, 1, 0, 0, 0),
    (18, 0, 16, 0, 0),
    (18, 0, 0, 255, 0),
    (19, 0, 0, 0, 0x0009_0008),
    (19, 0, 0, 0, 0x0000_0008),
    (19, 0, 0, 0, 0xffff_ffff),
    (19, 1, 0, 0, 0x0001_0000),
    (20, 0, 0, 0, 0x0010_0001),
    (20, 0, 1, 0, 0x0001_0000),
    (20, 0, 0, 1, 0x0001_0000),
    // The same of request L1's rows, and ops with no row.
    (21, 14, 0, 0, 0xffff_ffff),
    (22, 0, 15, 0, 0),
    (23, 14, 15, 0, 0x8000_0000),
    (24, 0, 15, 0, 1),
    (21, 16, 0, 0, 0),
    (21, 0, 0, 255, 0),
    (22, 0, 16, 0, 0),
    (22, 0, 0, 1, 0),
    (23, 255, 0, 0, 0),
    (23, 0, 0, 1, 0),
    (24, 0, 16, 0, 0),
    (24, 0, 0, 1, 0),
    (25, 0, 0, 0, 0),
    (26, 0, 0, 0, 0),
    (128, 0, 0, 0, 0),
    (255, 0, 0, 0, 0),
    // Register 15 as d (request L9): of each op that writes a register, of MOV and ADD also from it; and of
    // the stores, whose source it may be.
    (1, 15, 0, 255, 1),
    (1, 15, 0, 15, 0),
    (2, 15, 1, 255, 1),
    (3, 15, 1, 255, 1),
    (4, 15, 1, 255, 1),
    (5, 15, 1, 255, 1),
    (6, 15, 1, 255, 1),
    (7, 15, 1, 255, 1),
    (8, 15, 1, 255, 1),
    (9, 15, 1, 255, 1),
    (10, 15, 1, 255, 1),
    (11, 15, 1, 255, 1),
    (12, 15, 1, 255, 1),
    (13, 15, 1, 0, 0),
    (14, 15, 1, 0, 0),
    (21, 15, 1, 0, 0),
    (22, 15, 1, 0, 0),
    (23, 15, 1, 0, 0),
    (2, 15, 15, 15, 0),
    (15, 15, 15, 0, 0),
    (16, 15, 1, 0, 0),
    (24, 15, 1, 0, 0),
];

// Each row at index 1 of an image of 4 instructions and 16 bytes of memory.
pub fn table(out: &mut impl Write) -> io::Result<()> {
    for (op, d, a, b, imm) in TABLE {
        let [i0, i1, i2, i3] = imm.to_le_bytes();
        let code = [0, 0, 0, 0, 0, 0, 0, 0, op, d, a, b, i0, i1, i2, i3];
        let found = image::decode(&code, 1, N, M);
        writeln!(out, "{op} {d} {a} {b} {imm:08x}: {}", Shown(found))?;
    }
    Ok(())
}

// Code that ends before the eight bytes of an instruction.
pub fn ends(out: &mut impl Write) -> io::Result<()> {
    let code = [0u8; 16];
    for (name, code, index) in [
        ("index 0 of no bytes", &code[..0], 0),
        ("index 0 of 7 bytes", &code[..7], 0),
        ("index 1 of 15 bytes", &code[..15], 1),
        ("index 1 of 16 bytes", &code, 1),
        ("the highest index of 16 bytes", &code, usize::MAX),
    ] {
        writeln!(out, "{name}: {}", Shown(image::decode(code, index, N, M)))?;
    }
    Ok(())
}
