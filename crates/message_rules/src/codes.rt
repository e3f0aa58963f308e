// The numbers of BPKM by name: codes of messages, types of attributes, error codes, and how many octets things have (document 01, "Messages").

// Codes of messages, and of none.
pub const CODE_NONE: u8 = 0;

pub const CODE_AUTHORIZATION_REQUEST: u8 = 4;

pub const CODE_AUTHORIZATION_REPLY: u8 = 5;

pub const CODE_AUTHORIZATION_REJECT: u8 = 6;

pub const CODE_KEY_REQUEST: u8 = 7;

pub const CODE_KEY_REPLY: u8 = 8;

pub const CODE_KEY_REJECT: u8 = 9;

pub const CODE_AUTHORIZATION_INVALID: u8 = 10;

pub const CODE_TEK_INVALID: u8 = 11;

pub const CODE_AUTHENTICATION_INFORMATION: u8 = 12;

// Types of attributes.
pub const TYPE_AUTH_KEY: u8 = 7;

pub const TYPE_TEK: u8 = 8;

pub const TYPE_KEY_LIFETIME: u8 = 9;

pub const TYPE_KEY_NUMBER: u8 = 10;

pub const TYPE_DIGEST: u8 = 11;

pub const TYPE_SAID: u8 = 12;

pub const TYPE_TEK_PARAMETERS: u8 = 13;

pub const TYPE_VECTOR: u8 = 15;

pub const TYPE_ERROR: u8 = 16;

pub const TYPE_SUITE: u8 = 20;

pub const TYPE_SA_DESCRIPTOR: u8 = 23;

pub const TYPE_SA_TYPE: u8 = 24;

// Error codes that the head-end writes.
pub const ERROR_UNAUTHORIZED_MODEM: u8 = 1;

pub const ERROR_UNAUTHORIZED_SAID: u8 = 2;

pub const ERROR_KEY_NUMBER: u8 = 4;

pub const ERROR_DIGEST: u8 = 5;

pub const ERROR_PERMANENT: u8 = 6;

// SA types: of a modem's first SAID, of its others, and the highest that is read.
pub const SA_TYPE_PRIMARY: u8 = 0;

pub const SA_TYPE_STATIC: u8 = 1;

pub const SA_TYPE_MAX: u8 = 2;

// Seconds of a life that a message carries, at least.
pub const LIFE_MIN: u64 = 1;

// The Identifier of a message that belongs to no request.
pub const UNSOLICITED: u8 = 0;

// Octets of a message's head, and the most that Length may say.
pub const HEAD_OCTETS: usize = 4;

pub const LENGTH_MAX: usize = 1490;

// Octets of an attribute's head: its type and the length of its value.
pub const ATTRIBUTE_HEAD_OCTETS: usize = 3;

// Octets of a digest, and how many an AUTH-Key may have.
pub const DIGEST_OCTETS: usize = 20;

pub const AUTH_KEY_OCTETS_MIN: usize = 1;

pub const AUTH_KEY_OCTETS_MAX: usize = 256;

// Octets that have to be lent for an answer, for a TEK Invalid, and for the messages of one call at the modem.
pub const ANSWER_OCTETS: usize = 342;

pub const INVALID_OCTETS: usize = 40;

pub const SENT_OCTETS: usize = 216;
