// The writer of program images (02, L2): from M, instructions, regions and data to the bytes that the
// reader accepts. It looks at everything before it writes the first byte, by the reader's own rules,
// and needs no room but the buffer that it is lent. The call is total and equals its definition in
// specs/.
#![tactic(auto)]

ghost use Rattle.writer.specs.Promises.{WritePromise};

mod bytes; // bytes.rt: words and bytes, put into a buffer
mod checks; // checks.rt: the refusals of writing
mod entries; // entries.rt: instructions and regions as they are handed in
mod layout; // layout.rt: the image, put into a buffer
mod refusals; // refusals.rt: the refusals, with their numbers and indices

pub use refusals::Refusal;

// Writes the image of m bytes of memory, instructions of two words each, regions of three words each
// and the data of the filled ones to the front of a buffer, and answers how many bytes it has. Bytes
// past the image stay; a refusal touches nothing.
pub fn write(
    m: u32,
    instructions: &[u32],
    regions: &[u32],
    data: &[u8],
    out: &mut [u8],
) -> Result<usize, Refusal>
    ensures { WritePromise m instructions.now regions.now «data».now out.old result out.new }
{
    checks::check(m, instructions, regions, data.len(), out.len())?;
    Ok(layout::put_image(m, instructions, regions, data, out))
}
