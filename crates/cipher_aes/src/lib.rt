// AES with a key of 128 bits (FIPS 197, its sections and tables numbered as in the update of 2023): `keys::expand` makes the round keys,
// `encryption::encrypt` is the cipher, and `decryption::decrypt` the inverse cipher in its equivalent form, with the round keys of
// `decryption::inverse_schedule`. A table is read where it stands, by the reference that its function gives. Contracts go by
// specs/: Field (octets as field elements), Sbox, Cipher, Keys, and Words (what words and tables hold).

#![tactic(auto)]

pub mod decryption;
pub mod decryption_table;
pub mod encryption;
pub mod encryption_table;
pub mod inverse_sbox;
pub mod keys;
pub mod sizes;
pub mod words;
