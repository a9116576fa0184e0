// The refusals of reading (document 01, When the bench says no), and what the reader hands back.
ghost use Rattle.std.specs.Prelude.{◌≡◌, ◌≤◌, length};
ghost use Rattle.image.specs.Format.{header_size, magic_ok, layout_ok};
ghost use Rattle.image.specs.Refusals.{header_of, code_of, fields_of, reading_of};

use super::format::{HEADER, MAGIC};
use super::{Header, Refusal, entries, format, words};

// An image that is long enough for its header.
#[derive(Clone, Copy)]
struct Headed<'a> {
    image: &'a [u8],
    ghost has_header: { header_size ≤ length image.now },
}

impl Headed<'_> {
    // The header's four numbers.
    fn header(&self) -> Header
        ensures { result ≡ fields_of self.now.image.now }
    {
        Header {
            m: words::nth(self.image, format::WORD_M),
            n: words::nth(self.image, format::WORD_N),
            r: words::nth(self.image, format::WORD_R),
            d: words::nth(self.image, format::WORD_D),
        }
    }

    fn magic_ok(&self) -> bool
        ensures { result ≡ magic_ok self.now.image.now }
    {
        self.image.starts_with(&MAGIC)
    }

    // Whether the offsets and the length are as computed.
    fn layout_ok(&self, found: Header) -> bool
        ensures { result ≡ layout_ok self.now.image.now found.n found.r found.d }
    {
        let data_at = format::data_at(found.n, found.r);
        (words::nth(self.image, format::WORD_CODE) as usize == HEADER)
            & (words::nth(self.image, format::WORD_REGIONS) as usize == format::regions_at(found.n))
            & (words::nth(self.image, format::WORD_DATA) as usize == data_at)
            & (self.image.len() == data_at + found.d as usize)
    }
}

// Reads an image: M, N, R and D, or the first refusal that applies, in number order.
#[tactic(auto, unfolding(crate::specs::Refusals::refusal_of, crate::specs::Refusals::header_of))]
pub fn read(image: &[u8]) -> Result<Header, Refusal>
    ensures { reading_of result ≡ header_of image.now }
{
    if image.len() < HEADER {
        return Err(Refusal::TooShort);
    }
    let headed = Headed { image: image };
    if !headed.magic_ok() {
        return Err(Refusal::WrongMagic);
    }
    let found = headed.header();
    if !format::limits_ok(
        found.m as usize,
        found.n as usize,
        found.r as usize,
        found.d as usize,
    ) {
        return Err(Refusal::OutOfLimits);
    }
    if !headed.layout_ok(found) {
        return Err(Refusal::WrongLayout);
    }
    let code = format::code_part(image, found.n);
    let regions = format::region_part(image, found.n, found.r);
    entries::check_content(&code, &regions, found)?;
    Ok(found)
}

// The code, as a part of the image; empty when refused. It reads the image again: whoever has its
// header takes `format::code_part`.
#[tactic(auto, unfolding(crate::specs::Refusals::code_of))]
pub fn code(image: &[u8]) -> &[u8]
    ensures { result.now ≡ code_of image.now }
{
    match read(image) {
        Ok(found) => format::code_part(image, found.n),
        Err(_) => &image[..0],
    }
}
