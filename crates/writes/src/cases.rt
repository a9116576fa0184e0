// What is written: document 01's example, the largest image with and without faults, counts at their
// limits, parts of entries.
use image::format::part;
use std::io;
use std::io::Write;

// What is to be written, its regions as words.
#[derive(Clone, Copy)]
struct Program<'a> {
    m: u32,
    code: &'a [u32],
    regions: &'a [u32],
    data: &'a [u8],
}

impl Program<'_> {
    // Writes it, and prints a line: the answer, and how many bytes of the buffer are not EE, which was
    // there before.
    fn write(&self, stdout: &mut impl Write, name: &str, out: &mut [u8]) -> io::Result<()> {
        let wrote = writer::write(self.m, self.code, self.regions, self.data, out);
        let (refusal, index, size) = match wrote {
            Ok(size) => (0, 0, size),
            Err(refusal) => (refusal.number(), refusal.index(), 0),
        };
        let changed = out.iter().filter(|b| **b != 0xee).count();
        writeln!(
            stdout,
            "{name}: refusal {refusal} at {index}, size {size}, not ee: {changed}"
        )
    }
}

// So many bytes of a buffer from a place on, in hexadecimal, after the place.
fn bytes(stdout: &mut impl Write, buffer: &[u8], at: usize, size: usize) -> io::Result<()> {
    write!(stdout, "  from {at}:")?;
    for b in part(buffer, at, size) {
        write!(stdout, " {b:02x}")?;
    }
    writeln!(stdout)
}

// The example: MOV 0,8; LD32 1,0,0; EMIT 1,2; STOP, and a region.
const EXAMPLE: Program<'static> = Program {
    m: 16,
    code: &[0xff00_0001, 8, 0x0000_010e, 0, 0x0001_0012, 2, 0, 0],
    regions: &[8, 4, 2],
    data: b"",
};

// With a byte of room to spare.
pub fn example(stdout: &mut impl Write) -> io::Result<()> {
    let mut out = [0xee; 77];
    EXAMPLE.write(stdout, "the example", &mut out)?;
    bytes(stdout, &out, 0, 32)?;
    bytes(stdout, &out, 32, 32)?;
    bytes(stdout, &out, 64, 13)
}

// With room to the byte, one byte short, none.
pub fn rooms(stdout: &mut impl Write) -> io::Result<()> {
    EXAMPLE.write(stdout, "room for 76", &mut [0xee; 76])?;
    EXAMPLE.write(stdout, "room for 75", &mut [0xee; 75])?;
    EXAMPLE.write(stdout, "no room", &mut [])
}

// 32 filled regions of 256 bytes each.
fn all_filled() -> [[u32; 3]; 32] {
    let mut regions = [[0, 256, 1]; 32];
    for (region, i) in regions.iter_mut().zip(0..32u8) {
        region[0] = 256 * u32::from(i);
    }
    regions
}

// STOP 2,048 times, 32 regions, 8,192 bytes of data.
pub fn largest(stdout: &mut impl Write) -> io::Result<()> {
    let regions = all_filled();
    let program = Program {
        m: 8_192,
        code: &[0; 4_096],
        regions: regions.as_flattened(),
        data: &[0x5a; 8_192],
    };
    let mut out = [0xee; 24_996];
    program.write(stdout, "the largest", &mut out)?;
    bytes(stdout, &out, 0, 32)?;
    bytes(stdout, &out, 16_408, 32)?;
    bytes(stdout, &out, 16_776, 32)?;
    bytes(stdout, &out, 24_984, 12)?;
    program.write(stdout, "  room for 24991", &mut [0xee; 24_991])
}

// One instruction, and the largest's regions and data, with the last region or the data at fault.
pub fn faults(stdout: &mut impl Write) -> io::Result<()> {
    let mut regions = all_filled();
    let data = [0x5a; 8_192];
    let mut out = [0xee; 8_620];
    let program = Program {
        m: 8_192,
        code: &[0, 0],
        regions: regions.as_flattened(),
        data: &data[..8_191],
    };
    program.write(stdout, "a byte less", &mut out)?;
    for (name, kind) in [("region 31 not filled", 2), ("region 31 of kind 3", 3)] {
        regions[31][2] = kind;
        let program = Program {
            m: 8_192,
            code: &[0, 0],
            regions: regions.as_flattened(),
            data: &data,
        };
        program.write(stdout, name, &mut out)?;
    }
    Ok(())
}

// The largest, with its last region and more at fault.
pub fn more_faults(stdout: &mut impl Write) -> io::Result<()> {
    let mut code = [0; 4_096];
    code[4_094] = 0x0000_0f01;
    let mut regions = all_filled();
    regions[31][2] = 3;
    let program = Program {
        m: 8_192,
        code: &code,
        regions: regions.as_flattened(),
        data: &[0x5a; 8_192],
    };
    let mut out = [0xee; 24_996];
    program.write(stdout, "and instruction 2047 writes register 15", &mut out)?;
    let more = Program {
        m: 8_193,
        ..program
    };
    more.write(stdout, "and M 8193", &mut out)
}

// A program of instructions alone.
fn alone(m: u32, code: &[u32]) -> Program<'_> {
    Program {
        m,
        code,
        regions: &[],
        data: b"",
    }
}

// Instructions alone, as many as there may be and one more.
pub fn most_code(stdout: &mut impl Write) -> io::Result<()> {
    let code = [0; 4_098];
    let mut full = [0xee; 16_420];
    alone(1, &code[..4_096]).write(stdout, "N 2048", &mut full)?;
    bytes(stdout, &full, 16_408, 12)?;
    alone(1, &code).write(stdout, "N 2049", &mut [0xee; 16_424])
}

// No instruction, M 0, 33 regions.
pub fn limits(stdout: &mut impl Write) -> io::Result<()> {
    let mut out = [0xee; 440];
    alone(1, &[]).write(stdout, "N 0", &mut out)?;
    alone(0, &[0, 0]).write(stdout, "M 0", &mut out)?;
    let program = Program {
        regions: &[1; 99],
        ..alone(8_192, &[0, 0])
    };
    program.write(stdout, "R 33", &mut out)
}

// One byte of data more than there may be.
pub fn most_data(stdout: &mut impl Write) -> io::Result<()> {
    let regions = all_filled();
    let data = [0; 8_193];
    let mut out = [0xee; 8_620];
    for (name, data) in [("D 8193", &data[..]), ("D 8192", &data[..8_192])] {
        let program = Program {
            m: 8_192,
            code: &[0, 0],
            regions: regions.as_flattened(),
            data,
        };
        program.write(stdout, name, &mut out)?;
    }
    Ok(())
}

// 512 instructions alone, and one more.
pub fn more_code(stdout: &mut impl Write) -> io::Result<()> {
    let code = [0; 1_026];
    let mut full = [0xee; 4_140];
    alone(1, &code[..1_024]).write(stdout, "N 512", &mut full)?;
    bytes(stdout, &full, 4_120, 12)?;
    let mut out = [0xee; 4_140];
    alone(4_096, &code).write(stdout, "N 513", &mut out)?;
    bytes(stdout, &out, 4_128, 12)
}

// 4,097 bytes of data, which fill a memory of as many.
pub fn more_data(stdout: &mut impl Write) -> io::Result<()> {
    let program = Program {
        m: 4_097,
        code: &[0, 0],
        regions: &[0, 4_097, 1],
        data: &[0x5a; 4_097],
    };
    let mut out = [0xee; 4_152];
    program.write(stdout, "D 4097", &mut out)?;
    bytes(stdout, &out, 0, 56)?;
    bytes(stdout, &out, 4_144, 8)
}

// A part of an entry.
pub fn parts(stdout: &mut impl Write) -> io::Result<()> {
    let code = [0; 3];
    let regions = [1, 1, 2, 2, 1, 2];
    let mut out = [0xee; 80];
    for (name, code, regions) in [
        ("3 words of code", &code[..], &regions[..]),
        ("1 word of code", &code[..1], &regions),
        ("5 words of regions", &code[..2], &regions[..5]),
        ("4 words of regions", &code[..2], &regions[..4]),
        ("3 words of regions", &code[..2], &regions[..3]),
    ] {
        let program = Program {
            m: 4,
            code,
            regions,
            data: b"",
        };
        program.write(stdout, name, &mut out)?;
    }
    Ok(())
}
