// Images, one line each: what was done to it, then the refusal and its index, M, N, R and D, and the
// length of the code that the reader hands back.
use super::rows::Shown;
use image::format::{LARGEST, code_part, data_part, part, region_part};
use image::{Header, Kind, Region};
use std::fmt::Display;
use std::io::Write;
use std::{fmt, io};

// Document 01's example, 76 bytes, and one byte more.
const SAMPLE: [u8; 77] =
    *b"TUN1\x10\0\0\0\x04\0\0\0\x20\0\0\0\x01\0\0\0\x40\0\0\0\0\0\0\0\x4c\0\0\0\x01\0\0\xff\x08\0\0\0\x0e\x01\0\0\0\0\0\0\x12\0\x01\0\x02\0\0\0\0\0\0\0\0\0\0\0\x08\0\0\0\x04\0\0\0\x02\0\0\0\0";

// What is printed where an image is refused.
const ZEROS: Header = Header {
    m: 0,
    n: 0,
    r: 0,
    d: 0,
};

// The magic as a word.
const MAGIC: u32 = 0x314e_5554;

impl Display for Shown<Region> {
    fn fmt<W: fmt::Write>(&self, f: &mut fmt::Formatter<W>) -> fmt::Result {
        let kind = u32::from(self.0.kind);
        write!(f, "{} {} {kind}", self.0.start, self.0.size)
    }
}

fn read(out: &mut impl Write, name: impl Display + Drop, image: &[u8]) -> io::Result<()> {
    let (refusal, index, found) = match image::read(image) {
        Ok(found) => (0, 0, found),
        Err(refusal) => (refusal.number(), refusal.index(), ZEROS),
    };
    let size = image::code(image).len();
    writeln!(
        out,
        "{name}: refusal {refusal} at {index}, M {} N {} R {} D {}, code {size}",
        found.m, found.n, found.r, found.d
    )
}

fn put(image: &mut [u8], at: usize, byte: u8) {
    if let Some(place) = image.get_mut(at) {
        *place = byte;
    }
}

// Words from that place on, as many as have room.
fn put_words(image: &mut [u8], at: usize, words: &[u32]) {
    if let Some(rest) = image.get_mut(at..) {
        for (place, word) in rest.as_chunks_mut().0.iter_mut().zip(words) {
            *place = word.to_le_bytes();
        }
    }
}

// Bytes of the example, by their place, and their new values.
const CHANGES: [&[(usize, u8)]; 41] = [
    &[(0, 0x55)], // the magic's first byte
    &[(3, 0x32)], // the magic's last byte
    &[(4, 0)], // M 0
    &[(4, 0), (5, 16)], // M 4096
    &[(4, 1), (5, 16)], // M 4097
    &[(4, 0), (5, 32)], // M 8192
    &[(4, 1), (5, 32)], // M 8193
    &[(4, 16), (7, 1)], // M with a high byte
    &[(8, 0)], // N 0
    &[(8, 0), (9, 2)], // N 512, of which 4 are there
    &[(8, 1), (9, 2)], // N 513
    &[(8, 0), (9, 8)], // N 2048
    &[(8, 1), (9, 8)], // N 2049
    &[(16, 32)], // R 32, of which one is there
    &[(16, 33)], // R 33
    &[(24, 0), (25, 16)], // D 4096, of which none are there
    &[(24, 1), (25, 16)], // D 4097
    &[(24, 0), (25, 32)], // D 8192
    &[(24, 1), (25, 32)], // D 8193
    &[(24, 0), (27, 128)], // D with a high byte
    &[(12, 33)], // code at 33
    &[(20, 65)], // regions at 65
    &[(28, 77)], // data at 77
    &[(28, 76), (30, 1)], // an offset with a high byte
    &[(32, 25)], // instruction 0: op 25
    &[(43, 1)], // instruction 1: LD32 with b 1
    &[(52, 8)], // instruction 2: port 8
    &[(60, 1)], // instruction 3: STOP with imm 1
    &[(60, 1), (43, 1)], // instructions 3 and 1
    &[(72, 0)], // region of kind 0
    &[(72, 3)], // region of kind 3
    &[(68, 0)], // region of length 0
    &[(64, 12)], // region from 12 to 16, which is M
    &[(64, 13)], // region from 13 to 17
    &[(72, 1)], // region filled, without data
    &[(0, 0x55), (4, 0)], // refusals 2 and 3
    &[(4, 0), (12, 33)], // 3 and 4
    &[(12, 33), (32, 25)], // 4 and 5
    &[(60, 1), (72, 3)], // 5 and 6
    &[(60, 1), (72, 1)], // 5 and 7
    &[(64, 13), (72, 1)], // 6 and 7
];

fn read_changed(out: &mut impl Write, image: &mut [u8], changes: &[(usize, u8)]) -> io::Result<()> {
    for (i, &(at, byte)) in changes.iter().enumerate() {
        put(image, at, byte);
        let before = if i == 0 { "" } else { ", " };
        write!(out, "{before}byte {at} is {byte}")?;
    }
    read(out, "", image)
}

pub fn changes(out: &mut impl Write) -> io::Result<()> {
    for changes in CHANGES {
        let mut image = SAMPLE;
        read_changed(out, &mut image[..76], changes)?;
    }
    Ok(())
}

// The four instructions of the example, from the code that the reader hands back.
pub fn code(out: &mut impl Write) -> io::Result<()> {
    let code = image::code(&SAMPLE[..76]);
    for index in 0..4 {
        writeln!(out, "{}", Shown(image::decode(code, index, 4, 16)))?;
    }
    Ok(())
}

// The parts of the example and its region; the next region is past the end.
pub fn parts(out: &mut impl Write) -> io::Result<()> {
    let image = &SAMPLE[..76];
    let regions = region_part(image, 4, 1);
    writeln!(
        out,
        "parts of {}, {} and {} bytes, the largest image {LARGEST}",
        code_part(image, 4).len(),
        regions.len(),
        data_part(image, 4, 1, 0).len()
    )?;
    for index in 0..2 {
        let region = Shown(image::region_at(regions, index));
        writeln!(out, "region {index}: {region}")?;
    }
    Ok(())
}

pub fn sample(out: &mut impl Write) -> io::Result<()> {
    let zeros = [0u8; 32];
    for (name, image) in [
        ("the example", &SAMPLE[..76]),
        ("one byte more", &SAMPLE),
        ("no bytes", &SAMPLE[..0]),
        ("its first 31 bytes", &SAMPLE[..31]),
        ("its first 32 bytes", &SAMPLE[..32]),
        ("its first 75 bytes", &SAMPLE[..75]),
        ("31 zeros", &zeros[..31]),
        ("32 zeros", &zeros),
    ] {
        read(out, name, image)?;
    }
    Ok(())
}

// Start, length and kind of two regions, and D.
const PAIRS: [([[u32; 3]; 2], u8); 17] = [
    ([[0, 8, 2], [8, 4, 2]], 0),
    ([[0, 8, 2], [7, 5, 2]], 0),
    ([[8, 4, 2], [0, 8, 2]], 0),
    ([[0, 8, 2], [60, 4, 2]], 0),
    ([[0, 8, 2], [60, 5, 2]], 0),
    ([[0, 8, 2], [8, 0, 2]], 0),
    ([[0, 8, 2], [8, 4, 257]], 0),
    ([[0, 8, 3], [8, 4, 3]], 0),
    ([[0, 8, 2], [0xffff_ffff, 1, 2]], 0),
    ([[0, 8, 2], [8, 0xffff_fff8, 2]], 0),
    ([[8, 0xffff_fff8, 2], [0, 4, 2]], 0),
    ([[0, 8, 1], [8, 4, 1]], 12),
    ([[0, 8, 1], [8, 4, 1]], 8),
    ([[0, 8, 1], [8, 4, 1]], 13),
    ([[0, 8, 1], [8, 4, 2]], 8),
    ([[0, 8, 1], [8, 4, 2]], 12),
    ([[0, 8, 2], [8, 4, 1]], 4),
];

// One instruction, STOP, two regions and D zeros, with 64 bytes of memory.
pub fn pairs(out: &mut impl Write) -> io::Result<()> {
    for (regions, d) in PAIRS {
        let mut image = [0; 319];
        put_words(&mut image, 0, &[MAGIC, 64, 1, 32, 2, 40, u32::from(d), 64]);
        put_words(&mut image, 40, regions.as_flattened());
        let [first, second] = regions.map(|[start, size, kind]| Shown(Region {
            start,
            size,
            kind: Kind::from(kind),
        }));
        read(
            out,
            format_args!("regions {first}, {second}, D {d}"),
            &image[..64 + usize::from(d)],
        )?;
    }
    Ok(())
}

// Images of one instruction and nothing else.
pub fn ranges(out: &mut impl Write) -> io::Result<()> {
    for (name, m, op, imm) in [
        ("OPEN 8 to 16, which is M", 16, 19, 0x0008_0008),
        ("OPEN 8 to 17", 16, 19, 0x0009_0008),
        ("CLOSE 0 to 16", 16, 20, 0x0010_0000),
        ("CLOSE 1 to 17", 16, 20, 0x0010_0001),
        ("JNZ 0 of 1", 16, 17, 0),
        ("JNZ 1 of 1", 16, 17, 1),
        ("OPEN 4096 to 8192, which is M", 8_192, 19, 0x1000_1000),
        ("OPEN 4096 to 8193", 8_192, 19, 0x1001_1000),
        ("CLOSE 0 to 8192", 8_192, 20, 0x2000_0000),
        ("CLOSE 1 to 8193", 8_192, 20, 0x2000_0001),
    ] {
        let mut image = [0; 40];
        put_words(&mut image, 0, &[MAGIC, m, 1, 32, 0, 40, 0, 40, op, imm]);
        read(out, name, &image)?;
    }
    Ok(())
}

// 32 filled regions of that size, one behind the other.
fn filled(size: u16) -> [[u32; 3]; 32] {
    let size = u32::from(size);
    let mut regions = [[0, size, 1]; 32];
    for (region, i) in regions.iter_mut().zip(0..32u8) {
        region[0] = u32::from(i) * size;
    }
    regions
}

// STOP up to that index, 32 regions that fill M, and the image of just its size, a byte more and a byte
// less; then with its last instruction at fault, and its last region.
fn read_long(out: &mut impl Write, image: &mut [u8], last: u16, m: u16) -> io::Result<()> {
    let op = 32 + 8 * u32::from(last);
    let regions = op + 8;
    let held = regions + 12 * 32;
    let kind = held - 4;
    let d = u32::from(m);
    put_words(
        image,
        0,
        &[MAGIC, d, u32::from(last) + 1, 32, 32, regions, d, held],
    );
    put_words(image, regions as usize, filled(m / 32).as_flattened());
    let size = (held + d) as usize;
    for size in [size, size + 1, size - 1] {
        read(out, format_args!("{size} bytes"), part(image, 0, size))?;
    }
    put(image, op as usize, 25);
    read(
        out,
        format_args!("{size} bytes, instruction {last} at fault"),
        part(image, 0, size),
    )?;
    put(image, op as usize, 0);
    put(image, kind as usize, 3);
    read(
        out,
        format_args!("{size} bytes, region 31 at fault"),
        part(image, 0, size),
    )?;
    put(image, kind as usize, 2);
    read(
        out,
        format_args!("{size} bytes, region 31 not filled"),
        part(image, 0, size),
    )
}

pub fn long(out: &mut impl Write) -> io::Result<()> {
    read_long(out, &mut [0; 8_609], 511, 4_096)
}

// As many of each as there may be.
pub fn largest(out: &mut impl Write) -> io::Result<()> {
    read_long(out, &mut [0; 24_993], 2_047, 8_192)
}

// Instructions alone: 512 and one more, as many as there may be and one more.
pub fn longest_code(out: &mut impl Write) -> io::Result<()> {
    let mut image = [0; 16_424];
    for (n, size) in [(512, 4_128), (513, 4_136), (2_048, 16_416), (2_049, 16_424)] {
        put_words(&mut image, 0, &[MAGIC, 1, n, 32, 0, size, 0, size]);
        read(
            out,
            format_args!("N {n} and nothing else"),
            &image[..size as usize],
        )?;
    }
    Ok(())
}
