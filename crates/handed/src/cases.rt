// The outputs and lists: the values of document 02's gates at their ends and beyond, each port, and each
// cause of refusal 13 at its edge.
use commands::{Command, WrongOutputs, outputs, rates};
use std::fmt::Display;
use std::io::Write;
use std::{fmt, io};

// What is answered, as it is printed: a rate by its bits.
#[derive(Clone, Copy)]
struct Shown(Result<Command, WrongOutputs>);

impl Display for Shown {
    fn fmt<W: fmt::Write>(&self, f: &mut fmt::Formatter<W>) -> fmt::Result {
        let (name, rate) = match self.0 {
            Ok(Command::Bump(rate)) => ("bump", rate),
            Ok(Command::Rebound(rate)) => ("rebound", rate),
            Ok(Command::Preload(rate)) => ("preload", rate),
            Ok(Command::Blocked(port)) => return write!(f, "blocked {port}"),
            Err(refusal) => return write!(f, "refused {}", refusal.number()),
        };
        let bits = rates::bits_of(rate);
        write!(f, "{name} {bits:08x}")
    }
}

// What is answered for an output of a list.
fn list(
    out: &mut impl Write,
    name: impl Display + Drop,
    words: &[u32],
    number: usize,
) -> io::Result<()> {
    let found = Shown(outputs::command(words, number));
    writeln!(out, "{name} {found}")
}

fn output(out: &mut impl Write, port: u32, value: u32) -> io::Result<()> {
    let name = format_args!("port {port} value {value:08x}");
    list(out, name, &[port, value], 0)
}

const VALUES: [u32; 28] = [
    0x0000_0000, // 0
    0x8000_0000, // minus 0
    0x0000_0001, // the least subnormal number
    0x007F_FFFF, // the greatest
    0x0080_0000, // the least normal number
    0x3F80_0000, // 1
    0x421F_FFFF, // next below 40
    0x4220_0000, // 40
    0x4220_0001, // next above 40
    0x45F9_FFFF, // next below 8000
    0x45FA_0000, // 8000
    0x45FA_0001, // next above 8000
    0x7F7F_FFFF, // the largest finite number
    0x7F80_0000, // infinity
    0xFF80_0000, // minus infinity
    0x8000_0001, // the least number below 0
    0xB3D6_BF95, // -0.0000001
    0xBF80_0000, // -1
    0xC220_0000, // -40
    0xC5FA_0000, // -8000
    0x7FC0_0000, // not a number, quiet
    0x7FFF_FFFF,
    0x7F80_0001, // signalling
    0x7FBF_FFFF,
    0xFFC0_0000, // both with the sign
    0xFFFF_FFFF,
    0xFF80_0001,
    0xFFBF_FFFF,
];

// Each value at each port that has a gate, and at one that has none.
pub fn values(out: &mut impl Write) -> io::Result<()> {
    for value in VALUES {
        for port in 0..4 {
            output(out, port, value)?;
        }
    }
    Ok(())
}

// 1 at each port, and at numbers that are none.
pub fn ports(out: &mut impl Write) -> io::Result<()> {
    for port in [0, 1, 2, 3, 4, 5, 6, 7, 8, 9, 256, 0x8000_0000, 0xFFFF_FFFF] {
        output(out, port, 0x3F80_0000)?;
    }
    Ok(())
}

const TWO: [u32; 4] = [1, 0x45FA_0000, 2, 0x4220_0000];

const THREE: [u32; 3] = [0, 0, 1];

const BEHIND: [u32; 4] = [0, 0x3F80_0000, 9, 0];

const VALUES_8_AND_9: [u32; 4] = [0, 8, 2, 9];

pub fn lists(out: &mut impl Write) -> io::Result<()> {
    for (name, words, number) in [
        ("no words, 0", &[][..], 0),
        ("two outputs, 0", &TWO, 0),
        ("two outputs, 1", &TWO, 1),
        ("two outputs, 2", &TWO, 2),
        ("two outputs, 2 to the 63", &TWO, 1 << 63),
        ("two outputs, 2 to the 64 less 1", &TWO, usize::MAX),
        ("one word, 0", &[0], 0),
        ("three words, 0", &THREE, 0),
        ("three words, 1", &THREE, 1),
        ("port 9 behind, 0", &BEHIND, 0),
        ("port 9 behind, only what was made, 0", &BEHIND[..2], 0),
        ("port 8 before, 1", &[8, 0, 0, 0x3F80_0000], 1),
        ("values 8 and 9, 0", &VALUES_8_AND_9, 0),
        ("values 8 and 9, 1", &VALUES_8_AND_9, 1),
    ] {
        list(out, name, words, number)?;
    }
    Ok(())
}

// The answer for each of these outputs of a list.
fn answers(out: &mut impl Write, name: &str, words: &[u32], numbers: &[usize]) -> io::Result<()> {
    for &number in numbers {
        list(out, format_args!("{name}, {number}"), words, number)?;
    }
    Ok(())
}

pub fn sizes(out: &mut impl Write) -> io::Result<()> {
    let mut most = [0; 512];
    answers(out, "512 words", &most, &[0, 255, 256])?;
    answers(out, "511 words", &most[..511], &[0])?;
    answers(out, "510 words", &most[..510], &[254, 255])?;
    most[510] = 7;
    answers(out, "512 words, the last port 7", &most, &[0, 255])?;
    most[510] = 8;
    answers(out, "512 words, the last port 8", &most, &[0])?;
    most[510] = 2;
    most[511] = 9;
    answers(
        out,
        "512 words, 9 at the last, a preload",
        &most,
        &[254, 255],
    )?;
    let more = [0; 514];
    answers(out, "514 words", &more, &[0])?;
    answers(out, "513 words", &more[..513], &[0])
}
