// The message schedule of a block.
ghost use Rattle.std.specs.Prelude.{◌≡◌, ◌<◌, ◌≤◌, length, take};
ghost use Rattle.digest_sha1.specs.Sha1 as spec;

use crate::sizes::{ROUNDS, WORD_OCTETS, WORDS};
use crate::words::word;

// Words that are made before the first round: as many as the first quarter of the rounds takes.
pub const FIRST_WORDS: usize = 20;

// Word `t` from 16 on, of the words before it (FIPS 180-4 6.1.2, step 1).
pub fn next_word(w: &[u32; ROUNDS], t: usize) -> u32
    requires { (16 ≤ t) × (t < 80) }
    ensures { result ≡ spec.next_word_of w.now t }
{
    (w[t - 3] ^ w[t - 8] ^ w[t - 14] ^ w[t - 16]).rotate_left(1)
}

// The first 20 words of the schedule of a block (6.1.2, step 1).
pub fn first_words(b: &[u8]) -> [u32; ROUNDS]
    requires { length b.now ≡ 64 }
    ensures { take 20 result ≡ spec.schedule b.now 20 }
{
    let mut w = [0u32; ROUNDS];
    // an index, since it counts words here and octets of the block too
    for t in 0..WORDS {
        w[t] = word(b, WORD_OCTETS * t);
    }
    for t in WORDS..FIRST_WORDS {
        w[t] = next_word(&w, t);
    }
    w
}
