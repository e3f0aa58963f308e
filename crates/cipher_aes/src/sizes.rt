// The sizes of AES with a key of 128 bits (FIPS 197, sections 3 and 5).

// A block has 128 bits, and so has the key.
pub const BLOCK_OCTETS: usize = 16;

// A word has 32 bits.
pub const WORD_OCTETS: usize = 4;

// Rounds (section 5, table 3).
pub const ROUNDS: usize = 10;

// Round keys: one before the rounds and one for each of them (5.2).
pub const ROUND_KEYS: usize = 11;

// Entries of a table: one for each octet.
pub const TABLE_ENTRIES: usize = 256;
