// The inverse cipher in its equivalent form (FIPS 197, 5.3.5), and the round keys that it takes.
ghost use Rattle.std.specs.Prelude.{◌≡◌, [], ◌∷◌, ℕ, ◌<◌, ◌/◌, ◌%◌};
ghost use Rattle.cipher_aes.specs.Field.{xors, by9, by11, by13, by14};
ghost use Rattle.cipher_aes.specs.Sbox.{inv_sub};
ghost use Rattle.cipher_aes.specs.Cipher.{inv_mix_column, inv_mix_columns, eq_round_of, inv_final_of, eq_inv_cipher};
ghost use Rattle.cipher_aes.specs.Words.{word, state, key_at};

use crate::decryption_table::decryption_table;
use crate::encryption::{add_round_key, sub_of};
use crate::inverse_sbox::inverse_sbox;
use crate::sizes::{ROUND_KEYS, ROUNDS};
use crate::words::State;

// What an octet of row 0 adds to its column by InvSubBytes and InvMixColumns (5.3.2, 5.3.3).
pub fn inv_entry(x: u8) -> u32
    ensures { word result ≡ by14 (inv_sub x) ∷ by9 (inv_sub x) ∷ by13 (inv_sub x) ∷ by11 (inv_sub x) ∷ [] }
{
    decryption_table()[usize::from(x)]
}

// A column after a round: of the words that InvShiftRows takes its octets from, and the round key's word.
pub fn inv_mixed(a: u32, b: u32, c: u32, d: u32, k: u32) -> u32
    ensures { word result ≡ xors (inv_mix_column (inv_sub (a / 16777216 % 256)) (inv_sub (b / 65536 % 256)) (inv_sub (c / 256 % 256)) (inv_sub (d % 256))) (word k) }
{
    let [x, _, _, _] = a.to_be_bytes();
    let [_, y, _, _] = b.to_be_bytes();
    let [_, _, z, _] = c.to_be_bytes();
    let [_, _, _, w] = d.to_be_bytes();
    inv_entry(x)
        ^ inv_entry(y).rotate_right(8)
        ^ inv_entry(z).rotate_right(16)
        ^ inv_entry(w).rotate_right(24)
        ^ k
}

// The inverse S-box at an octet (5.3.2).
pub fn inv_sub_of(x: u8) -> u8
    ensures { result ≡ inv_sub x }
{
    inverse_sbox()[usize::from(x)]
}

// A column after the last round, which has no InvMixColumns.
pub fn inv_shifted(a: u32, b: u32, c: u32, d: u32, k: u32) -> u32
    ensures { word result ≡ xors (inv_sub (a / 16777216 % 256) ∷ inv_sub (b / 65536 % 256) ∷ inv_sub (c / 256 % 256) ∷ inv_sub (d % 256) ∷ []) (word k) }
{
    let [x, _, _, _] = a.to_be_bytes();
    let [_, y, _, _] = b.to_be_bytes();
    let [_, _, z, _] = c.to_be_bytes();
    let [_, _, _, w] = d.to_be_bytes();
    u32::from_be_bytes([inv_sub_of(x), inv_sub_of(y), inv_sub_of(z), inv_sub_of(w)]) ^ k
}

// A round of the equivalent inverse cipher (5.3.5).
pub fn inv_round(k: State, s: State) -> State
    ensures { state result ≡ eq_round_of (state k) (state s) }
{
    State {
        a: inv_mixed(s.a, s.d, s.c, s.b, k.a),
        b: inv_mixed(s.b, s.a, s.d, s.c, k.b),
        c: inv_mixed(s.c, s.b, s.a, s.d, k.c),
        d: inv_mixed(s.d, s.c, s.b, s.a, k.d),
    }
}

// Its last round (5.3.5).
pub fn inv_final(k: State, s: State) -> State
    ensures { state result ≡ inv_final_of (state k) (state s) }
{
    State {
        a: inv_shifted(s.a, s.d, s.c, s.b, k.a),
        b: inv_shifted(s.b, s.a, s.d, s.c, k.b),
        c: inv_shifted(s.c, s.b, s.a, s.d, k.c),
        d: inv_shifted(s.d, s.c, s.b, s.a, k.d),
    }
}

// The equivalent inverse cipher (5.3.5) with the round keys, and the same through InvMixColumns.
pub fn decrypt(keys: &[State; ROUND_KEYS], mixed: &[State; ROUND_KEYS], s: State) -> State
    ensures { state result ≡ eq_inv_cipher (key_at keys.now) (key_at mixed.now) (state s) }
{
    let mut x = add_round_key(keys[ROUNDS], s);
    for key in mixed[1..ROUNDS].iter().rev() {
        x = inv_round(*key, x);
    }
    inv_final(keys[0], x)
}

// A word through InvMixColumns: the decryption table undoes the S-box, so it is applied first.
pub fn inv_mixed_word(x: u32) -> u32
    ensures { word result ≡ inv_mix_column (x / 16777216 % 256) (x / 65536 % 256) (x / 256 % 256) (x % 256) }
{
    let [a, b, c, d] = x.to_be_bytes();
    let y = u32::from_be_bytes([sub_of(a), sub_of(b), sub_of(c), sub_of(d)]);
    inv_mixed(y, y, y, y, 0)
}

// A round key through InvMixColumns (5.3.5).
pub fn inv_mixed_key(k: State) -> State
    ensures { state result ≡ inv_mix_columns (state k) }
{
    State {
        a: inv_mixed_word(k.a),
        b: inv_mixed_word(k.b),
        c: inv_mixed_word(k.c),
        d: inv_mixed_word(k.d),
    }
}

// The round keys through InvMixColumns (5.3.5).
pub fn inverse_schedule(keys: &[State; ROUND_KEYS]) -> [State; ROUND_KEYS]
    ensures { (i : ℕ) → i < 11 → key_at result i ≡ inv_mix_columns (key_at keys.now i) }
{
    let mut mixed = *keys;
    for key in &mut mixed {
        *key = inv_mixed_key(*key);
    }
    mixed
}
