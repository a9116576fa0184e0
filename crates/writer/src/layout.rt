// The image, put into a buffer that has room for it: header, instructions, regions and data.
ghost use Rattle.std.specs.Prelude.{◌≡◌, ◌++◌, ◌≤◌, length};
ghost use Rattle.std.proofs.lemmas.List.Edits.{sets};
ghost use Rattle.image.specs.Format.{magic, header_size, size_of};
ghost use Rattle.image.specs.Accepted.{Limits};
ghost use Rattle.writer.specs.Words.{bytes_of};
ghost use Rattle.writer.specs.Writing.{instruction_count, region_count, header_words, image_of};
ghost use Rattle.writer.specs.Pieces.{Counted};

use super::bytes::WORD;
use super::{bytes, entries};
use image::{Header, format};

// The first four bytes, and the seven words after them.
fn put_header(header: Header, out: &mut [u8])
    requires { Limits header.m header.n header.r header.d × (header_size ≤ length out.old) }
    ensures { out.new ≡ sets out.old 0 (magic ++ bytes_of (header_words header.m header.n header.r header.d)) }
{
    let Header { m, n, r, d } = header;
    let regions_at = format::regions_at(n) as u32;
    let data_at = format::data_at(n, r) as u32;
    let words = [m, n, format::HEADER as u32, r, regions_at, d, data_at];
    bytes::put_bytes(out, 0, &format::MAGIC);
    bytes::put_words(out, WORD * format::WORD_M, &words);
}

// The image, to the front of the buffer; how many bytes it has. M, instructions and regions come one by
// one, as C hands them in.
pub fn put_image(
    m: u32,
    instructions: &[u32],
    regions: &[u32],
    data: &[u8],
    out: &mut [u8],
) -> usize
    requires { Counted m instructions.now regions.now (length «data».now) × (size_of (instruction_count instructions.now) (region_count regions.now) (length «data».now) ≤ length out.old) }
    ensures value { result ≡ length (image_of m instructions.now regions.now «data».now) }
    ensures out_after { out.new ≡ sets out.old 0 (image_of m instructions.now regions.now «data».now) }
{
    let n = entries::instruction_count(instructions) as u32;
    let r = entries::region_count(regions) as u32;
    let regions_at = format::regions_at(n);
    let data_at = format::data_at(n, r);
    let header = Header {
        m,
        n,
        r,
        d: data.len() as u32,
    };
    put_header(header, out);
    bytes::put_words(out, format::HEADER, instructions);
    bytes::put_words(out, regions_at, regions);
    bytes::put_bytes(out, data_at, data);
    data_at + data.len()
}
