// States and events of both machines by name (document 01, "Modem: authorization machine" and "Modem: TEK machine").
// They are numbers, and no enums: C gives and reads the machines' states, and `tek_next`, `authorization_next`, `step` and `deliver` promise their
// answers for every number.

// In a table of transitions: nothing changes and nothing is sent.
pub const BLANK: u8 = 6;

// The last state of either machine, F.
pub const STATE_MAX: u8 = 5;

// States of the authorization machine, A to F.
pub const AUTH_START: u8 = 0;

pub const AUTH_WAIT: u8 = 1;

pub const AUTH_AUTHORIZED: u8 = 2;

pub const AUTH_REAUTH_WAIT: u8 = 3;

pub const AUTH_REJECT_WAIT: u8 = 4;

pub const AUTH_SILENT: u8 = 5;

// Events of the authorization machine.
pub const AUTH_EVENT_ESTABLISHED: u8 = 1;

pub const AUTH_EVENT_REJECT: u8 = 2;

pub const AUTH_EVENT_PERMANENT_REJECT: u8 = 3;

pub const AUTH_EVENT_REPLY: u8 = 4;

pub const AUTH_EVENT_TIMEOUT: u8 = 5;

pub const AUTH_EVENT_GRACE: u8 = 6;

pub const AUTH_EVENT_INVALID: u8 = 7;

pub const AUTH_EVENT_REAUTH: u8 = 8;

// States of a TEK machine, A to F.
pub const TEK_START: u8 = 0;

pub const TEK_OP_WAIT: u8 = 1;

pub const TEK_OP_REAUTH_WAIT: u8 = 2;

pub const TEK_OPERATIONAL: u8 = 3;

pub const TEK_REKEY_WAIT: u8 = 4;

pub const TEK_REKEY_REAUTH_WAIT: u8 = 5;

// Events of a TEK machine.
pub const TEK_EVENT_STOP: u8 = 1;

pub const TEK_EVENT_AUTHORIZED: u8 = 2;

pub const TEK_EVENT_PEND: u8 = 3;

pub const TEK_EVENT_COMPLETE: u8 = 4;

pub const TEK_EVENT_INVALID: u8 = 5;

pub const TEK_EVENT_TIMEOUT: u8 = 6;

pub const TEK_EVENT_REFRESH: u8 = 7;

pub const TEK_EVENT_KEY_REPLY: u8 = 8;

pub const TEK_EVENT_KEY_REJECT: u8 = 9;
