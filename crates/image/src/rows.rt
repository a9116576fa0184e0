// The table of instructions (document 01, What a card holds; ops 21 to 24: 02, L1; register 15 is not
// written: 02, L9).
ghost use Rattle.std.specs.Prelude.{◌≡◌};
ghost use Rattle.image.specs.Rows.{row_of, is_writable, operand_ok, range_ok, fields_ok, operand_of, built, decoded, decode_at};
ghost use Rattle.image.specs.Encoding.{ReadsAs};

use super::format::{HALF, INSTRUCTION, PORTS};
use super::ops::LITERAL;
use super::{Data, Instruction, Operand, Operation, Widening, Width, format, ops, words};

// The fields of an instruction after its op.
#[derive(Clone, Copy)]
struct Fields {
    d: u8,
    a: u8,
    b: u8,
    imm: u32,
}

// The row of an op, before its fields are looked at. Ops above the last have none: that is a case here and
// no `None`, as the definitions make an instruction of any row, and would need one for it as well.
#[derive(Clone, Copy)]
enum Row {
    Stops,
    Moves,
    Computes(Operation),
    Loads(Width, Widening),
    Stores(Width),
    Jumps,
    Emits,
    Marks(bool),
    Missing,
}

const REGISTERS: u8 = format::REGISTERS as u8;

const FRAME_REGISTER: u8 = format::FRAME_REGISTER as u8;

#[tactic(auto, unfolding(crate::specs::Rows::row_of))]
fn row_of(op: u8) -> Row
    ensures { result ≡ row_of op }
{
    match op {
        ops::STOP => Row::Stops,
        ops::MOV => Row::Moves,
        ops::ADD => Row::Computes(Operation::Add),
        ops::SUB => Row::Computes(Operation::Sub),
        ops::MUL => Row::Computes(Operation::Mul),
        ops::AND => Row::Computes(Operation::And),
        ops::OR => Row::Computes(Operation::Or),
        ops::XOR => Row::Computes(Operation::Xor),
        ops::SHL => Row::Computes(Operation::Shl),
        ops::SHR => Row::Computes(Operation::Shr),
        ops::SAR => Row::Computes(Operation::Sar),
        ops::EQ => Row::Computes(Operation::Eq),
        ops::LTU => Row::Computes(Operation::Ltu),
        ops::LD8 => Row::Loads(Width::Byte, Widening::Zero),
        ops::LD32 => Row::Loads(Width::Word, Widening::Zero),
        ops::ST8 => Row::Stores(Width::Byte),
        ops::ST32 => Row::Stores(Width::Word),
        ops::JNZ => Row::Jumps,
        ops::EMIT => Row::Emits,
        ops::OPEN => Row::Marks(true),
        ops::CLOSE => Row::Marks(false),
        ops::LD16 => Row::Loads(Width::Half, Widening::Zero),
        ops::LDS8 => Row::Loads(Width::Byte, Widening::Sign),
        ops::LDS16 => Row::Loads(Width::Half, Widening::Sign),
        ops::ST16 => Row::Stores(Width::Half),
        _ => Row::Missing,
    }
}

// Whether d is a register that an instruction may write: any but the frame register.
fn writable(d: u8) -> bool
    ensures { result ≡ is_writable d }
{
    (d < REGISTERS) & (d != FRAME_REGISTER)
}

fn operand_ok(b: u8, imm: u32) -> bool
    ensures { result ≡ operand_ok b imm }
{
    (b == LITERAL) | ((b < REGISTERS) & (imm == 0))
}

fn range_ok(imm: u32, m: u32) -> bool
    ensures { result ≡ range_ok imm m }
{
    let start = imm % HALF;
    let size = imm / HALF;
    (1 <= size) & (start + size <= m)
}

// Whether the fields keep their row; an unused field is 0.
#[tactic(auto, unfolding(crate::specs::Rows::fields_ok))]
fn fields_ok(row: Row, fields: Fields, n: u32, m: u32) -> bool
    ensures { result ≡ fields_ok row fields.d fields.a fields.b fields.imm n m }
{
    let Fields { d, a, b, imm } = fields;
    match row {
        Row::Stops => (d == 0) & (a == 0) & (b == 0) & (imm == 0),
        Row::Moves => writable(d) & (a == 0) & operand_ok(b, imm),
        Row::Computes(_) => writable(d) & (a < REGISTERS) & operand_ok(b, imm),
        Row::Loads(_, _) => writable(d) & (a < REGISTERS) & (b == 0),
        Row::Stores(_) => (d < REGISTERS) & (a < REGISTERS) & (b == 0),
        Row::Jumps => (d == 0) & (a < REGISTERS) & (b == 0) & (imm < n),
        Row::Emits => (d == 0) & (a < REGISTERS) & (b == 0) & (imm < PORTS),
        Row::Marks(_) => (d == 0) & (a == 0) & (b == 0) & range_ok(imm, m),
        Row::Missing => false,
    }
}

fn operand_of(b: u8, imm: u32) -> Operand
    ensures { result ≡ operand_of b imm }
{
    if b == LITERAL {
        Operand::Literal(Data(imm))
    } else {
        Operand::Register(b)
    }
}

// The instruction of fields that keep their row; of no row there is none, and the answer is not used.
#[tactic(auto, unfolding(crate::specs::Rows::built))]
fn build(row: Row, fields: Fields) -> Instruction
    ensures { result ≡ built row fields.d fields.a fields.b fields.imm }
{
    let Fields { d, a, b, imm } = fields;
    match row {
        Row::Stops => Instruction::Stop,
        Row::Moves => Instruction::Move {
            d,
            b: operand_of(b, imm),
        },
        Row::Computes(op) => Instruction::Compute {
            op,
            d,
            a,
            b: operand_of(b, imm),
        },
        Row::Loads(width, widening) => Instruction::Load {
            width,
            widening,
            d,
            a,
            imm,
        },
        Row::Stores(width) => Instruction::Store { width, d, a, imm },
        Row::Jumps => Instruction::Jump { a, target: imm },
        Row::Emits => Instruction::Emit { a, port: imm },
        Row::Marks(addressable) => Instruction::Mark {
            addressable,
            start: imm % HALF,
            size: imm / HALF,
        },
        Row::Missing => Instruction::Stop,
    }
}

#[tactic(auto, unfolding(crate::specs::Rows::decoded))]
fn decode_fields(
    row: Row,
    fields: Fields,
    index: usize,
    n: u32,
    m: u32,
) -> Result<Instruction, usize>
    ensures { result ≡ decoded row fields.d fields.a fields.b fields.imm index n m }
{
    if fields_ok(row, fields, n, m) {
        Ok(build(row, fields))
    } else {
        Err(index)
    }
}

// Instruction number index of the code of an image with n instructions and m bytes of memory, or the
// index where there is none that keeps its row. N and M are two numbers, and no header, as document 01
// words the rows by them.
pub fn decode(code: &[u8], index: usize, n: u32, m: u32) -> Result<Instruction, usize>
    ensures value { result ≡ decode_at code.now index n m }
    ensures reads_as { ReadsAs code.now index n m result }
{
    if index < code.len() / INSTRUCTION {
        let at = INSTRUCTION * index;
        let fields = Fields {
            d: code[at + 1],
            a: code[at + 2],
            b: code[at + 3],
            imm: words::nth(code, 2 * index + 1),
        };
        decode_fields(row_of(code[at]), fields, index, n, m)
    } else {
        Err(index)
    }
}
