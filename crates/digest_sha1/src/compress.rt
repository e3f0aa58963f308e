// One block: 80 rounds over its schedule, and the next hash value.
ghost use Rattle.std.specs.Prelude.{◌≡◌, ℕ, ◌+◌, ◌<◌, ◌≤◌, List, length};
ghost use Rattle.digest_sha1.specs.Words as words;
ghost use Rattle.digest_sha1.specs.Sha1 as spec;

use crate::schedule::{FIRST_WORDS, first_words, next_word};
use crate::sizes::ROUNDS;
use crate::value::{Hash, added};
use crate::words::{ch, maj, parity};

// K of the rounds 0 to 19, 20 to 39, 40 to 59 and 60 to 79 (FIPS 180-4 4.2.1).
const K_FIRST: u32 = 0x5a827999;

const K_SECOND: u32 = 0x6ed9eba1;

const K_THIRD: u32 = 0x8f1bbcdc;

const K_FOURTH: u32 = 0xca62c1d6;

// Rounds of a quarter: each quarter has a function and a constant of its own (4.1.1, 4.2.1).
const QUARTER: usize = 20;

// A round with the function's value, the constant and the word given (6.1.2, step 3).
fn round(s: Hash, f: u32, k: u32, w: u32) -> Hash
    ensures { result ≡ spec.round s f k w }
{
    Hash {
        a: s.a
            .rotate_left(5)
            .wrapping_add(f)
            .wrapping_add(s.e)
            .wrapping_add(k)
            .wrapping_add(w),
        b: s.a,
        c: s.b.rotate_left(30),
        d: s.c,
        e: s.d,
    }
}

// The rounds of the quarter that begins at `from`, with its function and constant (6.1.2, step 3). Each word is made as its round comes, which is faster
// than all of them first.
fn quarter<F: Fn(u32, u32, u32) -> u32>(
    w: &mut [u32; ROUNDS],
    start: Hash,
    from: usize,
    f: F,
    k: u32,
) -> Hash
    requires callable { F.IsAlwaysCallable f }
    requires place { (20 ≤ from) × (from ≤ 60) }
    requires function { (t x y z r : ℕ) → from ≤ t → t < from + 20 → F.post f x y z r → r ≡ words.f t x y z }
    requires constant { (t : ℕ) → from ≤ t → t < from + 20 → k ≡ words.K t }
    ensures { (b : List ℕ) (h : Hash) → spec.Upto b h w.old start from → spec.Upto b h w.new result (from + 20) }
{
    let mut s = start;
    // an index, since a word is made of those 3 to 16 places before it
    for t in from..from + QUARTER {
        let x = next_word(w, t);
        w[t] = x;
        s = round(s, f(s.b, s.c, s.d), k, x);
    }
    s
}

// The next hash value, after one more block (6.1.2).
pub fn compress(h: Hash, b: &[u8]) -> Hash
    requires { length b.now ≡ 64 }
    ensures { result ≡ spec.compress h b.now }
{
    let mut w = first_words(b);
    let mut s = h;
    for x in &w[..FIRST_WORDS] {
        s = round(s, ch(s.b, s.c, s.d), K_FIRST, *x);
    }
    let s = quarter(&mut w, s, QUARTER, parity, K_SECOND);
    let s = quarter(&mut w, s, 2 * QUARTER, maj, K_THIRD);
    let s = quarter(&mut w, s, 3 * QUARTER, parity, K_FOURTH);
    added(h, s)
}
