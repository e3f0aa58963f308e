// The limits of document 01, "Settings", by name: how far numbers go, and how many there may be of each thing.

// Lives, graces and waits that may be set, in seconds.
pub const TEK_LIFE_MIN: u64 = 1800;

pub const TEK_LIFE_MAX: u64 = 604800;

pub const AK_LIFE_MIN: u64 = 86400;

pub const AK_LIFE_MAX: u64 = 6048000;

pub const GRACE_MIN: u64 = 300;

pub const WAIT_MIN: u64 = 1;

pub const WAIT_MAX: u64 = 600;

// What an Authorization Reply may carry as an authorization key's life: the second of two keys ends two lives after the clock.
pub const AK_REPLY_LIFE_MAX: u64 = 12096000;

// The last second of the clock.
pub const CLOCK_MAX: u64 = 1000000000000;

// An address has 48 bits, a SAID 14.
pub const ADDRESS_BOUND: u64 = 281474976710656;

pub const SAID_MAX: u16 = 16383;

// Modems and records of a head-end, SAIDs of a modem, at most.
pub const MODEMS_MAX: usize = 16;

pub const RECORDS_MAX: usize = 64;

pub const SAIDS_MAX: usize = 4;

// SAIDs of a modem, at least.
pub const SAIDS_MIN: usize = 1;
