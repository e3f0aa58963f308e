// The cipher (FIPS 197, 5.1). A round works out a column at a time, each octet of it by the table.
ghost use Rattle.std.specs.Prelude.{◌≡◌, [], ◌∷◌, ◌/◌, ◌%◌};
ghost use Rattle.cipher_aes.specs.Field.{xors, by2, by3};
ghost use Rattle.cipher_aes.specs.Sbox.{sub};
ghost use Rattle.cipher_aes.specs.Cipher.{mix_column, add_round_key_of, round, final_round_of, cipher};
ghost use Rattle.cipher_aes.specs.Words.{word, state, key_at};

use crate::encryption_table::encryption_table;
use crate::sizes::{ROUND_KEYS, ROUNDS};
use crate::words::State;

// What an octet of row 0 adds to its column by SubBytes and MixColumns (5.1.1, 5.1.3).
pub fn entry(x: u8) -> u32
    ensures { word result ≡ by2 (sub x) ∷ sub x ∷ sub x ∷ by3 (sub x) ∷ [] }
{
    encryption_table()[usize::from(x)]
}

// A column after a round: of the words that ShiftRows takes its octets from, and the round key's word (5.1.1 to 5.1.4). The entries of `c` and `d` are
// summed before they are rotated; three places twice are the two of `c`. The compiler makes fewer instructions of it than of three rotations apart.
pub fn mixed(a: u32, b: u32, c: u32, d: u32, k: u32) -> u32
    ensures { word result ≡ xors (mix_column (sub (a / 16777216 % 256)) (sub (b / 65536 % 256)) (sub (c / 256 % 256)) (sub (d % 256))) (word k) }
{
    let [x, _, _, _] = a.to_be_bytes();
    let [_, y, _, _] = b.to_be_bytes();
    let [_, _, z, _] = c.to_be_bytes();
    let [_, _, _, w] = d.to_be_bytes();
    let both = (entry(z).rotate_right(24) ^ entry(w)).rotate_right(24);
    entry(x) ^ entry(y).rotate_right(8) ^ both ^ k
}

// The S-box at an octet (5.1.1): the second octet of its entry.
pub fn sub_of(x: u8) -> u8
    ensures { result ≡ sub x }
{
    let [_, s, _, _] = entry(x).to_be_bytes();
    s
}

// A column after the last round, which has no MixColumns (5.1).
pub fn shifted(a: u32, b: u32, c: u32, d: u32, k: u32) -> u32
    ensures { word result ≡ xors (sub (a / 16777216 % 256) ∷ sub (b / 65536 % 256) ∷ sub (c / 256 % 256) ∷ sub (d % 256) ∷ []) (word k) }
{
    let [x, _, _, _] = a.to_be_bytes();
    let [_, y, _, _] = b.to_be_bytes();
    let [_, _, z, _] = c.to_be_bytes();
    let [_, _, _, w] = d.to_be_bytes();
    u32::from_be_bytes([sub_of(x), sub_of(y), sub_of(z), sub_of(w)]) ^ k
}

// AddRoundKey (5.1.4), and the sum of any two blocks.
pub fn add_round_key(k: State, s: State) -> State
    ensures { state result ≡ add_round_key_of (state k) (state s) }
{
    State {
        a: s.a ^ k.a,
        b: s.b ^ k.b,
        c: s.c ^ k.c,
        d: s.d ^ k.d,
    }
}

// A round (5.1).
pub fn round(k: State, s: State) -> State
    ensures { state result ≡ round (state k) (state s) }
{
    State {
        a: mixed(s.a, s.b, s.c, s.d, k.a),
        b: mixed(s.b, s.c, s.d, s.a, k.b),
        c: mixed(s.c, s.d, s.a, s.b, k.c),
        d: mixed(s.d, s.a, s.b, s.c, k.d),
    }
}

// The last round (5.1).
pub fn final_round(k: State, s: State) -> State
    ensures { state result ≡ final_round_of (state k) (state s) }
{
    State {
        a: shifted(s.a, s.b, s.c, s.d, k.a),
        b: shifted(s.b, s.c, s.d, s.a, k.b),
        c: shifted(s.c, s.d, s.a, s.b, k.c),
        d: shifted(s.d, s.a, s.b, s.c, k.d),
    }
}

// The cipher (5.1) with the round keys.
pub fn encrypt(keys: &[State; ROUND_KEYS], s: State) -> State
    ensures { state result ≡ cipher (key_at keys.now) (state s) }
{
    let mut x = add_round_key(keys[0], s);
    for key in &keys[1..ROUNDS] {
        x = round(*key, x);
    }
    final_round(keys[ROUNDS], x)
}
