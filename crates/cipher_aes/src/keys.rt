// The key expansion (FIPS 197, 5.2), a round key at a time.
ghost use Rattle.std.specs.Prelude.{◌≡◌, ℕ, ◌<◌};
ghost use Rattle.cipher_aes.specs.Keys.{rcon, next_key_of, round_key};
ghost use Rattle.cipher_aes.specs.Words.{state, key_at};

use crate::encryption::sub_of;
use crate::sizes::{ROUND_KEYS, ROUNDS};
use crate::words::State;

// The first octets of the round constants (table 5); the other octets are 0.
const RCON: [u8; ROUNDS] = [0x01, 0x02, 0x04, 0x08, 0x10, 0x20, 0x40, 0x80, 0x1b, 0x36];

// The first octet of the constant that makes round key `n` + 1 (table 5).
pub fn round_constant(n: usize) -> u8
    requires { n < 10 }
    ensures { result ≡ rcon n }
{
    RCON[n]
}

// The round key after `k`, with the round constant `rc` (5.2).
pub fn next_key(rc: u8, k: State) -> State
    ensures { state result ≡ next_key_of rc (state k) }
{
    let [p, q, r, s] = k.d.to_be_bytes();
    let t = u32::from_be_bytes([sub_of(q), sub_of(r), sub_of(s), sub_of(p)])
        ^ u32::from_be_bytes([rc, 0, 0, 0]);
    let a = k.a ^ t;
    let b = k.b ^ a;
    let c = k.c ^ b;
    State {
        a,
        b,
        c,
        d: k.d ^ c,
    }
}

// The round keys of a key (5.2), which is the first of them.
pub fn expand(key: State) -> [State; ROUND_KEYS]
    ensures { (i : ℕ) → i < 11 → key_at result i ≡ round_key (state key) i }
{
    let mut keys = [key; ROUND_KEYS];
    // an index, since a key is made of the one before it and of the constant of its place
    for i in 0..ROUNDS {
        keys[i + 1] = next_key(round_constant(i), keys[i]);
    }
    keys
}
