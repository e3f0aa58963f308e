// The fields of a message, by value.
ghost use Rattle.std.specs.Prelude.{◌≡◌, replicate};
ghost use Rattle.message_rules.specs.Fields.{no_descriptor_of, no_params_of};

use key_traffic::numbers::{AkNumber, TekNumber};
use key_traffic::octets::KEY_OCTETS;
use questions::limits::SAIDS_MAX;
use questions::refusal::Answer;

// A TEK or a vector: its octets from the front of 16, zeros after them.
#[repr(C)]
#[derive(Clone, Copy)]
pub struct KeyOctets {
    pub width: usize,
    pub octets: [u8; KEY_OCTETS],
}

// TEK-Parameters (13).
#[repr(C)]
#[derive(Clone, Copy)]
pub struct Params {
    pub number: TekNumber,
    pub life: u64,
    pub tek: KeyOctets,
    pub vector: KeyOctets,
}

// SA-Descriptor (23); `kind` is the SA type.
#[repr(C)]
#[derive(Clone, Copy)]
pub struct Descriptor {
    pub said: u16,
    pub kind: u8,
    pub suite: u16,
}

// All that a message carries but the AUTH-Key and the digest. What its code does not carry is zero. `life` is that of an
// authorization key; `older` and `newer` are the first and the second TEK-Parameters; of the descriptors the first `count` are there.
#[repr(C)]
#[derive(Clone, Copy)]
pub struct Fields {
    pub code: u8,
    pub identifier: u8,
    pub ak: AkNumber,
    pub said: u16,
    pub life: u64,
    pub error: u8,
    pub count: usize,
    pub descriptors: [Descriptor; SAIDS_MAX],
    pub older: Params,
    pub newer: Params,
}

// Which end reads.
#[derive(Clone, Copy)]
pub enum Receiver {
    HeadEnd,
    Modem,
}

// A part of a message.
#[repr(C)]
#[derive(Clone, Copy)]
pub struct Place {
    pub start: usize,
    pub len: usize,
}

// What a reading hands back: the answer, the fields, where the AUTH-Key's octets stand and where the digest's do. All but the
// answer is zero where the message is refused or has none.
#[derive(Clone, Copy)]
pub struct Reading {
    pub answer: Answer,
    pub fields: Fields,
    pub key: Place,
    pub digest: Place,
}

// No TEK-Parameters.
pub fn no_params() -> Params
    ensures { result ≡ no_params_of }
{
    let none = KeyOctets {
        width: 0,
        octets: [0u8; KEY_OCTETS],
    };
    Params {
        number: TekNumber(0),
        life: 0,
        tek: none,
        vector: none,
    }
}

// No descriptors.
pub fn no_descriptors() -> [Descriptor; SAIDS_MAX]
    ensures { result ≡ replicate 4 no_descriptor_of }
{
    let none = Descriptor {
        said: 0,
        kind: 0,
        suite: 0,
    };
    [none; SAIDS_MAX]
}
