// The numbers that C hands in and gets back, by name, as in include/curlewreel.h.

// The ends that read.
pub const HEAD_END: u8 = 0;

pub const MODEM: u8 = 1;

pub const END_MAX: u8 = 1;
