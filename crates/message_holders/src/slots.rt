// Slots and counts of a pass by name: which slot a required type fills, in a body and inside a compound. They are numbers and no enum, since they are
// places of an array, and a count up to 2, as specs/Slots.antt has them.

// Slots of a body, and how many there are.
pub const SLOT_KEY_NUMBER: usize = 0;

pub const SLOT_SAID: usize = 1;

pub const SLOT_KEY_LIFETIME: usize = 2;

pub const SLOT_ERROR: usize = 3;

pub const SLOT_AUTH_KEY: usize = 4;

pub const SLOT_DIGEST: usize = 5;

pub const BODY_SLOTS: usize = 6;

// In place of a body's slot: a compound, and a type that is not required.
pub const SLOT_COMPOUND: usize = 6;

pub const SLOT_NOT_REQUIRED: usize = 7;

// Slots inside TEK-Parameters.
pub const INSIDE_TEK: usize = 0;

pub const INSIDE_KEY_LIFETIME: usize = 1;

pub const INSIDE_KEY_NUMBER: usize = 2;

pub const INSIDE_VECTOR: usize = 3;

// Slots inside an SA-Descriptor, which has no fourth.
pub const INSIDE_SAID: usize = 0;

pub const INSIDE_SA_TYPE: usize = 1;

pub const INSIDE_SUITE: usize = 2;

// How many slots the inside of a compound has; and in place of one, a type that is not required.
pub const INSIDE_SLOTS: usize = 4;

pub const INSIDE_NOT_REQUIRED: usize = 4;

// How often a slot's type stands in its holder: once, or more often.
pub const ONCE: usize = 1;

pub const REPEATED: usize = 2;

// Compounds of a body whose places are kept, and the count where there are more.
pub const COMPOUNDS_KEPT: usize = 4;

pub const COMPOUNDS_MORE: usize = 5;

// The last type of a body: none, as no type has this number; and the digest, TYPE_DIGEST.
pub const NO_LAST_TYPE: usize = 256;

pub const LAST_DIGEST: usize = 11;
