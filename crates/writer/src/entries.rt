// Instructions and regions as they are handed in, as words: the reader's own rules look at them by this.
ghost use Rattle.std.specs.Prelude.{◌≡◌};
ghost use Rattle.image.specs.Rows.{decode_at};
ghost use Rattle.image.specs.Regions.{region_at};
ghost use Rattle.writer.specs.Words.{bytes_of};
ghost use Rattle.writer.specs.Writing.{instruction_count, region_count};

use super::bytes;
use image::{Entries, Instruction, Kind, Region, format};

// The words of an instruction and of a region.
pub const INSTRUCTION_WORDS: usize = 2;

pub const REGION_WORDS: usize = 3;

// How many instructions a list holds, and how many regions: each by its own definition.
pub fn instruction_count(instructions: &[u32]) -> usize
    ensures { result ≡ instruction_count instructions.now }
{
    instructions.len() / INSTRUCTION_WORDS
}

// How many regions.
pub fn region_count(regions: &[u32]) -> usize
    ensures { result ≡ region_count regions.now }
{
    regions.len() / REGION_WORDS
}

// Instruction number i, if the eight bytes that it is written as decode, or i.
fn instruction_at(instructions: &[u32], i: usize, n: u32, m: u32) -> Result<Instruction, usize>
    ensures { result ≡ decode_at (bytes_of instructions.now) i n m }
{
    if instruction_count(instructions) <= i {
        return Err(i);
    }
    let at = INSTRUCTION_WORDS * i;
    let mut row = [0; format::INSTRUCTION];
    bytes::put_words(&mut row, 0, &[instructions[at], instructions[at + 1]]);
    match image::decode(&row, 0, n, m) {
        Ok(found) => Ok(found),
        Err(_) => Err(i),
    }
}

// Region number i; zeros past the last.
fn region_at(regions: &[u32], i: usize) -> Region
    ensures { result ≡ region_at (bytes_of regions.now) i }
{
    if region_count(regions) <= i {
        return Region {
            start: 0,
            size: 0,
            kind: Kind::from(0),
        };
    }
    let at = REGION_WORDS * i;
    Region {
        start: regions[at],
        size: regions[at + 1],
        kind: Kind::from(regions[at + 2]),
    }
}

// A list of instructions, or of regions.
#[derive(Clone, Copy)]
pub struct Words<'a>(pub &'a [u32]);

impl Entries for Words<'_> {
    ghost bytes = { λ words. bytes_of words.0.now };

    fn instruction(&self, i: usize, n: u32, m: u32) -> Result<Instruction, usize> {
        instruction_at(self.0, i, n, m)
    }

    fn region(&self, i: usize) -> Region {
        region_at(self.0, i)
    }
}
