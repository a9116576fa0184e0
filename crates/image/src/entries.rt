// The instructions and regions of an image, and the refusals for them (document 01, When the bench says
// no), whatever holds them: the reader looks at bytes, a writer at what is handed to it.
ghost use Rattle.std.specs.Prelude.{◌≡◌, ℕ, List};
ghost use Rattle.image.specs.Rows.{decode_at};
ghost use Rattle.image.specs.Regions.{region_at, filled_sum};
ghost use Rattle.image.specs.Refusals.{code_refusal, region_refusal, content_refusal, verdict_of};

use super::{Header, Instruction, Refusal, Region, regions, rows};

// A list of instructions, or of regions.
pub trait Entries {
    // Its bytes in an image.
    ghost bytes: { Self → List ℕ };

    // Instruction number i, in an image with n instructions and m bytes of memory, or i where none keeps
    // its row.
    fn instruction(&self, i: usize, n: u32, m: u32) -> Result<Instruction, usize>
        ensures { result ≡ decode_at (bytes self.now) i n m };

    // Region number i; zeros past the last.
    fn region(&self, i: usize) -> Region
        ensures { result ≡ region_at (bytes self.now) i };
}

impl Entries for &[u8] {
    ghost bytes = { λ s. s.now };

    fn instruction(&self, i: usize, n: u32, m: u32) -> Result<Instruction, usize> {
        rows::decode(self, i, n, m)
    }

    fn region(&self, i: usize) -> Region {
        regions::region_at(self, i)
    }
}

// Refusal 5 at the first instruction that breaks its row.
#[tactic(auto, unfolding(crate::specs::Refusals::code_refusal))]
fn check_code<E: Entries>(code: &E, n: u32, m: u32) -> Result<(), Refusal>
    ensures { verdict_of result ≡ code_refusal (E.bytes code.now) n m }
{
    for i in 0..n as usize {
        let Ok(_) = code.instruction(i, n, m) else {
            return Err(Refusal::BadInstruction(i));
        };
    }
    Ok(())
}

// Refusal 6 at the first region that breaks the rules.
#[tactic(auto, unfolding(crate::specs::Refusals::region_refusal, crate::specs::Regions::end_before))]
fn check_regions<E: Entries>(regions: &E, r: u32, m: u32) -> Result<(), Refusal>
    ensures { verdict_of result ≡ region_refusal (E.bytes regions.now) r m }
{
    let mut before = 0;
    for i in 0..r as usize {
        let found = regions.region(i);
        if !regions::region_keeps(found, before, m) {
            return Err(Refusal::BadRegion(i));
        }
        before = regions::end_of(found);
    }
    Ok(())
}

// How many bytes of data belong to the first r regions.
#[tactic(auto, using(crate::proofs::RegionLaws::filled_next), unfolding(crate::specs::Regions::filled_sum))]
fn filled_sum<E: Entries>(regions: &E, r: u32) -> usize
    ensures { result ≡ filled_sum (E.bytes regions.now) r }
{
    let mut sum = 0;
    for i in 0..r as usize {
        sum += regions::filled_of(regions.region(i));
    }
    sum
}

// Refusals 5, 6 and 7, of an image that has these instructions and regions, M, N, R and D.
pub fn check_content<E: Entries>(code: &E, regions: &E, found: Header) -> Result<(), Refusal>
    ensures { verdict_of result ≡ content_refusal (E.bytes code.now) (E.bytes regions.now) found.m found.n found.r found.d }
{
    check_code(code, found.n, found.m)?;
    check_regions(regions, found.r, found.m)?;
    if filled_sum(regions, found.r) != found.d as usize {
        return Err(Refusal::WrongSum);
    }
    Ok(())
}
