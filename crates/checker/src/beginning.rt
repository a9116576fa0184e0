// Beginning (document 01, Beginning): what an accepted image makes of memory, V bits and A bits.
ghost use Rattle.std.specs.Prelude.{◌≡◌, cond, ℕ, ◌+◌, ◌≤◌, ◌<◌, length, get_or};
ghost use Rattle.image.specs.Format.{field_m};
ghost use Rattle.image.specs.Regions.{region_at, end_of, filled_of, filled_sum, has_bytes};
ghost use Rattle.image.specs.Refusals.{fields_of};
ghost use Rattle.image.specs.Accepted.{Accepted};
ghost use Rattle.machine.specs.Machine.{undefined_byte, defined_byte, addressable_mark};
ghost use Rattle.machine.specs.Ranges.{written, filled};
ghost use Rattle.machine.specs.Beginning.{is_filled, lay_data, lay_v, lay_a, laid, begun_memory, begun_v, begun_a};
ghost use Rattle.checker.specs.Pieces.{Sizes};

use super::ranges;
use image::{Header, Kind, Region};

// So many bytes from an address on get those of held, from an offset on. One by one: with `copy_from_slice`
// the archive for C would need memmove from outside.
fn copy(held: &[u8], from: usize, s: &mut [u8], at: usize, size: usize)
    requires { (from + size ≤ length held.now) × (at + size ≤ length s.old) }
    ensures { s.new ≡ written (λ k. get_or held.now (from + k) 0) s.old at size }
{
    for k in 0..size {
        s[at + k] = held[from + k];
    }
}

// V of the bytes of a region of that kind: the image has them, or nobody knows them.
fn v_of(kind: Kind) -> u8
    ensures { result ≡ cond (has_bytes kind) defined_byte undefined_byte }
{
    match kind {
        Kind::Filled => ranges::DEFINED,
        _ => ranges::UNDEFINED,
    }
}

// What a program begins in: memory, and its V and A bits, of one size.
#[derive(Drop)]
struct Buffers<'a> {
    mem: &'a mut [u8],
    vbits: &'a mut [u8],
    abits: &'a mut [u8],
    ghost size_v: { length vbits.now ≡ length mem.now },
    ghost size_a: { length abits.now ≡ length mem.now },
}

impl Buffers<'_> {
    ghost use Rattle.checker.specs.Buffers.{BuffersLent};

    // One region, whose data begins at an offset of the image's; where the next one's begins.
    fn lay_region(&mut self, region: Region, held: &[u8], from: usize) -> usize
        requires { (end_of region ≤ length self.old.mem.now) × (from + filled_of region ≤ length held.now) }
        ensures value { result ≡ from + filled_of region }
        ensures lent { BuffersLent self.old self.new }
        ensures mem_after { self.new.mem.now ≡ cond (is_filled region) (written (λ k. get_or held.now (from + k) 0) self.old.mem.now region.start region.size) self.old.mem.now }
        ensures vbits_after { self.new.vbits.now ≡ filled (cond (is_filled region) defined_byte undefined_byte) self.old.vbits.now region.start region.size }
        ensures abits_after { self.new.abits.now ≡ filled addressable_mark self.old.abits.now region.start region.size }
    {
        let at = region.start as usize;
        let size = region.size as usize;
        ranges::fill(v_of(region.kind), self.vbits, at, size);
        ranges::fill(ranges::ADDRESSABLE, self.abits, at, size);
        match region.kind {
            Kind::Filled => {
                copy(held, from, self.mem, at, size);
                from + size
            },
            _ => from,
        }
    }

    // The first r regions, one after the other.
    fn lay(&mut self, regions: &[u8], r: u32, held: &[u8])
        requires { ((i : ℕ) → i < r → end_of (region_at regions.now i) ≤ length self.old.mem.now) × (filled_sum regions.now r ≤ length held.now) }
        ensures lent { BuffersLent self.old self.new }
        ensures mem_after { self.new.mem.now ≡ laid (lay_data regions.now held.now) r self.old.mem.now }
        ensures vbits_after { self.new.vbits.now ≡ laid (lay_v regions.now) r self.old.vbits.now }
        ensures abits_after { self.new.abits.now ≡ laid (lay_a regions.now) r self.old.abits.now }
    {
        let mut from = 0;
        for i in 0..r as usize {
            let region = image::region_at(regions, i);
            from = self.lay_region(region, held, from);
        }
    }
}

// Memory, V bits and A bits at the beginning, from an accepted image and its header.
pub fn lay_out(image: &[u8], found: Header, mem: &mut [u8], vbits: &mut [u8], abits: &mut [u8])
    requires { (found ≡ fields_of image.now) × Accepted image.now × Sizes (field_m image.now) mem.old vbits.old abits.old }
    ensures mem_after { mem.new ≡ begun_memory image.now mem.old }
    ensures vbits_after { vbits.new ≡ begun_v image.now }
    ensures abits_after { abits.new ≡ begun_a image.now }
{
    let m = found.m as usize;
    ranges::fill(ranges::UNDEFINED, vbits, 0, m);
    ranges::fill(ranges::UNADDRESSABLE, abits, 0, m);
    let regions = image::format::region_part(image, found.n, found.r);
    let held = image::format::data_part(image, found.n, found.r, found.d);
    let mut buffers = Buffers {
        mem: mem,
        vbits: vbits,
        abits: abits,
    };
    buffers.lay(regions, found.r, held);
}
