// The regions of an image: their three words, and the rules for them.
ghost use Rattle.std.specs.Prelude.{◌≡◌, ◌<◌, ◌^◌};
ghost use Rattle.image.specs.Regions.{region_at, end_of, region_keeps, filled_of};

use super::format::REGION;
use super::{Kind, Region, words};

// Region number i of a list of regions; zeros past the last.
#[tactic(auto, unfolding(crate::specs::Regions::region_at))]
pub fn region_at(regions: &[u8], i: usize) -> Region
    ensures { result ≡ region_at regions.now i }
{
    if i < regions.len() / REGION {
        Region {
            start: words::nth(regions, 3 * i),
            size: words::nth(regions, 3 * i + 1),
            kind: Kind::from(words::nth(regions, 3 * i + 2)),
        }
    } else {
        Region {
            start: 0,
            size: 0,
            kind: Kind::from(0),
        }
    }
}

// Where a region ends.
pub fn end_of(found: Region) -> usize
    ensures { result ≡ end_of found }
{
    found.start as usize + found.size as usize
}

// Whether a region keeps the rules, where the one before it ends at `before`.
pub fn region_keeps(found: Region, before: usize, m: u32) -> bool
    ensures { result ≡ region_keeps found before m }
{
    (1 <= found.size)
        & (before <= found.start as usize)
        & (end_of(found) <= m as usize)
        & matches!(found.kind, Kind::Filled | Kind::Undefined)
}

// How many bytes of data belong to a region.
pub fn filled_of(found: Region) -> usize
    ensures { (result ≡ filled_of found) × (result < 2 ^ 32) }
{
    match found.kind {
        Kind::Filled => found.size as usize,
        _ => 0,
    }
}
