// The fixed numbers of an image (document 01, What a card holds), and its parts.
ghost use Rattle.std.specs.Prelude.{◌≡◌};
ghost use Rattle.image.specs.Format.{limits_ok, regions_at, data_at, part_of, code_part, region_part, data_part};

pub const MAGIC: [u8; 4] = *b"TUN1";

// The bytes of the header, of an instruction, of a region.
pub const HEADER: usize = 32;

pub const INSTRUCTION: usize = 8;

pub const REGION: usize = 12;

// The words of the header, by number: M, N, R and D, and where code, regions and data begin.
pub const WORD_M: usize = 1;

pub const WORD_N: usize = 2;

pub const WORD_CODE: usize = 3;

pub const WORD_R: usize = 4;

pub const WORD_REGIONS: usize = 5;

pub const WORD_D: usize = 6;

pub const WORD_DATA: usize = 7;

// The most that M, N, R and D may be (02, L5).
pub const MOST_M: u32 = 8_192;

pub const MOST_N: u32 = 2_048;

pub const MOST_R: u32 = 32;

pub const MOST_D: u32 = 8_192;

// How many registers an instruction can name.
pub const REGISTERS: usize = 16;

// Register 15, the frame register: an instruction may read it, and may not write it (02, L9). At the
// beginning it is the one that is defined.
pub const FRAME_REGISTER: usize = 15;

// How many output ports an instruction can name.
pub const PORTS: u32 = 8;

// The halves of the range of OPEN and CLOSE: its start is the low one, its length the high one.
pub const HALF: u32 = 0x1_0000;

// The most bytes that an image has.
pub const LARGEST: usize = HEADER
    + INSTRUCTION * (MOST_N as usize)
    + REGION * (MOST_R as usize)
    + MOST_D as usize;

// Whether M, N, R and D keep their limits. They are usize, so that a count is compared before it is
// narrowed.
pub fn limits_ok(m: usize, n: usize, r: usize, d: usize) -> bool
    ensures { result ≡ limits_ok m n r d }
{
    (1 <= m)
        & (m <= MOST_M as usize)
        & (1 <= n)
        & (n <= MOST_N as usize)
        & (r <= MOST_R as usize)
        & (d <= MOST_D as usize)
}

// Where the regions have to begin, after n instructions.
pub fn regions_at(n: u32) -> usize
    ensures { result ≡ regions_at n }
{
    HEADER + INSTRUCTION * n as usize
}

// Where the data has to begin, after n instructions and r regions.
pub fn data_at(n: u32, r: u32) -> usize
    ensures { result ≡ data_at n r }
{
    regions_at(n) + REGION * r as usize
}

// The part of s from at on, of so many bytes, or of as many as there are.
pub fn part(s: &[u8], at: usize, size: usize) -> &[u8]
    ensures { result.now ≡ part_of s.now at size }
{
    if s.len() <= at {
        return &s[..0];
    }
    let rest = &s[at..];
    if rest.len() <= size {
        return rest;
    }
    &rest[..size]
}

// The n instructions of an image.
pub fn code_part(image: &[u8], n: u32) -> &[u8]
    ensures { result.now ≡ code_part image.now n }
{
    part(image, HEADER, INSTRUCTION * n as usize)
}

// Its r regions.
pub fn region_part(image: &[u8], n: u32, r: u32) -> &[u8]
    ensures { result.now ≡ region_part image.now n r }
{
    part(image, regions_at(n), REGION * r as usize)
}

// Its d bytes of data.
pub fn data_part(image: &[u8], n: u32, r: u32, d: u32) -> &[u8]
    ensures { result.now ≡ data_part image.now n r d }
{
    part(image, data_at(n, r), d as usize)
}
