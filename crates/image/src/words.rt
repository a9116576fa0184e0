// Little-endian words of a slice of bytes.
ghost use Rattle.std.specs.Prelude.{◌≡◌, ◌+◌, ◌*◌, ◌≤◌, length};
ghost use Rattle.image.specs.Words.{nth_word};

// Word number k.
#[tactic(auto, unfolding(crate::specs::Words::nth_word, rules::specs::Bytes::joined))]
pub fn nth(s: &[u8], k: usize) -> u32
    requires { 4 * k + 4 ≤ length s.now }
    ensures { result ≡ nth_word s.now k }
{
    let at = 4 * k;
    rules::bytes::join4(s[at], s[at + 1], s[at + 2], s[at + 3])
}
