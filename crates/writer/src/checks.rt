// The refusals of writing (02, L2), in number order: the reader's 3, 5, 6 and 7, by its own rules, then
// 12.
ghost use Rattle.std.specs.Prelude.{◌≡◌};
ghost use Rattle.writer.specs.Refusals.{verdict_of};
ghost use Rattle.writer.specs.Writing.{counts_ok, write_refusal};

use super::Refusal;
use super::entries::{INSTRUCTION_WORDS, REGION_WORDS, Words, instruction_count, region_count};
use image::{Header, format};

// Whether the lists have whole entries, and M, N, R and D keep their limits.
#[tactic(auto, unfolding(crate::specs::Writing::counts_ok))]
fn counts_ok(m: u32, instructions: &[u32], regions: &[u32], d: usize) -> bool
    ensures { result ≡ counts_ok m instructions.now regions.now d }
{
    let n = instruction_count(instructions);
    let r = region_count(regions);
    (instructions.len() % INSTRUCTION_WORDS == 0)
        & (regions.len() % REGION_WORDS == 0)
        & format::limits_ok(m as usize, n, r, d)
}

// The first refusal that applies, in number order, of what C hands in one by one.
#[tactic(auto, unfolding(crate::specs::Writing::write_refusal, crate::specs::Writing::entries_refusal))]
pub fn check(
    m: u32,
    instructions: &[u32],
    regions: &[u32],
    d: usize,
    room: usize,
) -> Result<(), Refusal>
    ensures { verdict_of result ≡ write_refusal m instructions.now regions.now d room }
{
    if !counts_ok(m, instructions, regions, d) {
        return Err(Refusal::Image(image::Refusal::OutOfLimits));
    }
    let found = Header {
        m,
        n: instruction_count(instructions) as u32,
        r: region_count(regions) as u32,
        d: d as u32,
    };
    image::check_content(&Words(instructions), &Words(regions), found)?;
    if room < format::data_at(found.n, found.r) + d {
        return Err(Refusal::NoRoom);
    }
    Ok(())
}
