// Words and bytes, put into a buffer from a place on.
ghost use Rattle.std.specs.Prelude.{◌≡◌, ◌+◌, ◌*◌, ◌≤◌, length};
ghost use Rattle.std.proofs.lemmas.List.Edits.{sets};
ghost use Rattle.writer.specs.Words.{word_bytes, bytes_of};

// The bytes of a word.
pub const WORD: usize = 4;

// Some bytes, one by one: with `copy_from_slice` the archive for C would need memmove from outside.
pub fn put_bytes(out: &mut [u8], at: usize, held: &[u8])
    requires { at + length held.now ≤ length out.old }
    ensures { out.new ≡ sets out.old at held.now }
{
    for (i, byte) in held.iter().enumerate() {
        out[at + i] = *byte;
    }
}

// The four bytes of a word, the lowest first.
pub fn put_word(out: &mut [u8], at: usize, w: u32)
    requires { at + 4 ≤ length out.old }
    ensures { out.new ≡ sets out.old at (word_bytes w) }
{
    put_bytes(out, at, &w.to_le_bytes());
}

// The bytes of some words.
#[tactic(auto, unfolding(crate::specs::Words::bytes_of))]
pub fn put_words(out: &mut [u8], at: usize, words: &[u32])
    requires { at + 4 * length words.now ≤ length out.old }
    ensures { out.new ≡ sets out.old at (bytes_of words.now) }
{
    for (i, word) in words.iter().enumerate() {
        put_word(out, at + WORD * i, *word);
    }
}
