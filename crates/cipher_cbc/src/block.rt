// Blocks of 16 octets in slices, read and stored as States.
ghost use Rattle.std.specs.Prelude.{◌≡◌, ◌+◌, ◌≤◌, length, take, drop};
ghost use Rattle.std.proofs.lemmas.List.Edits.{sets};
ghost use Rattle.cipher_aes.specs.Words.{word, state};

use cipher_aes::sizes::WORD_OCTETS;
use cipher_aes::words::State;

// The word whose octets begin at `at`.
pub fn load_word(s: &[u8], at: usize) -> u32
    requires { at + 4 ≤ length s.now }
    ensures { word result ≡ take 4 (drop at s.now) }
{
    // with u32::from_be_bytes sealing is slower: 75,524 instructions and 8,880 ns for 1,518 octets, where this takes 67,969 and 5,830
    u32::from(s[at]) * 16777216
        + u32::from(s[at + 1]) * 65536
        + u32::from(s[at + 2]) * 256
        + u32::from(s[at + 3])
}

// The block that begins at `at`.
pub fn load(s: &[u8], at: usize) -> State
    requires { at + 16 ≤ length s.now }
    ensures { state result ≡ take 16 (drop at s.now) }
{
    State {
        a: load_word(s, at),
        b: load_word(s, at + 4),
        c: load_word(s, at + 8),
        d: load_word(s, at + 12),
    }
}

// Stores the octets of a word from `at` on.
pub fn store_word(out: &mut [u8], at: usize, x: u32)
    requires { at + 4 ≤ length out.old }
    ensures { out.new ≡ sets out.old at (word x) }
{
    out[at..at + WORD_OCTETS].copy_from_slice(&x.to_be_bytes());
}

// Stores a block from `at` on.
pub fn store(out: &mut [u8], at: usize, s: State)
    requires { at + 16 ≤ length out.old }
    ensures { out.new ≡ sets out.old at (state s) }
{
    store_word(out, at, s.a);
    store_word(out, at + 4, s.b);
    store_word(out, at + 8, s.c);
    store_word(out, at + 12, s.d);
}
