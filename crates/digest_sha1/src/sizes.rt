// The sizes of SHA-1 (FIPS 180-4, sections 1, 5 and 6.1).

// A block has 512 bits.
pub const BLOCK_OCTETS: usize = 64;

// A digest has 160 bits.
pub const DIGEST_OCTETS: usize = 20;

// A word has 32 bits.
pub const WORD_OCTETS: usize = 4;

// Words of a block (5.2.1).
pub const WORDS: usize = 16;

// Rounds for a block, and words of its schedule (6.1.2).
pub const ROUNDS: usize = 80;

// Where the length of the message stands in the last block (5.1.1).
pub const LENGTH_START: usize = 56;
