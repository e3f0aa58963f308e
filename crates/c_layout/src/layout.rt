// The fields of a message in octets, for C: read from 109 of them, or put into 118 with the places of the AUTH-Key and the digest and whether it
// holds.
ghost use Rattle.std.specs.Prelude.{◌+◌, ◌≤◌, ◌≡◌};
ghost use Rattle.key_traffic.specs.Put.{Put};
ghost use Rattle.c_layout.specs.Layout.{key_laid, params_laid, descriptor_laid, descriptors_laid, head_laid, fields_octets, place_laid, holds_octet_of, reading_octets, key_from_of, params_from_of, descriptor_from_of, descriptors_from_of, fields_from_of};

use key_traffic::numbers::{AkNumber, TekNumber};
use key_traffic::octets::{KEY_OCTETS, octets};
use message_attributes::octets::{be16_of, be32_of, octet, part};
use message_parts::put::{four_octets, put_octets, two_octets};
use message_rules::fields::{Descriptor, Fields, KeyOctets, Params, Place, Reading};
use questions::limits::SAIDS_MAX;

// Where the fields stand, as include/curlewreel.h names them.
const FIELD_CODE: usize = 0;

const FIELD_IDENTIFIER: usize = 1;

const FIELD_AK_NUMBER: usize = 2;

const FIELD_ERROR: usize = 3;

const FIELD_COUNT: usize = 4;

const FIELD_SAID: usize = 5;

const FIELD_LIFE: usize = 7;

const FIELD_DESCRIPTORS: usize = 11;

const FIELD_OLDER: usize = 31;

const FIELD_NEWER: usize = 70;

// Octets that a writing takes, and those that a reading gives.
pub const FIELDS_WRITTEN: usize = 109;

pub const FIELDS: usize = 118;

// Whether the digest holds.
const DIGEST_NO: u8 = 0;

const DIGEST_YES: u8 = 1;

// Within a descriptor, and its octets.
const DESCRIPTOR_SAID: usize = 0;

const DESCRIPTOR_TYPE: usize = 2;

const DESCRIPTOR_SUITE: usize = 3;

const DESCRIPTOR: usize = 5;

// Within the four descriptors, and their octets.
const FIRST_DESCRIPTOR: usize = 0;

const SECOND_DESCRIPTOR: usize = 5;

const THIRD_DESCRIPTOR: usize = 10;

const FOURTH_DESCRIPTOR: usize = 15;

const DESCRIPTORS: usize = 20;

// Within TEK-Parameters, and their octets.
const PARAMS_NUMBER: usize = 0;

const PARAMS_LIFE: usize = 1;

const PARAMS_TEK_WIDTH: usize = 5;

const PARAMS_VECTOR_WIDTH: usize = 22;

const PARAMS: usize = 39;

// Within a TEK or a vector, from its width on, and its octets.
const KEY_WIDTH: usize = 0;

const KEY_VALUE: usize = 1;

const KEY: usize = 17;

// Octets of a SAID, a suite and a life.
const SAID_OCTETS: usize = 2;

const SUITE_OCTETS: usize = 2;

const LIFE_OCTETS: usize = 4;

fn key_from(v: &[u8]) -> KeyOctets
    ensures { result ≡ key_from_of v.now }
{
    KeyOctets {
        width: usize::from(octet(v, KEY_WIDTH)),
        octets: octets(v, KEY_VALUE, KEY_OCTETS),
    }
}

fn params_from(v: &[u8]) -> Params
    ensures { result ≡ params_from_of v.now }
{
    Params {
        number: TekNumber(octet(v, PARAMS_NUMBER)),
        life: be32_of(part(v, PARAMS_LIFE, LIFE_OCTETS)),
        tek: key_from(part(v, PARAMS_TEK_WIDTH, KEY)),
        vector: key_from(part(v, PARAMS_VECTOR_WIDTH, KEY)),
    }
}

fn descriptor_from(v: &[u8]) -> Descriptor
    ensures { result ≡ descriptor_from_of v.now }
{
    Descriptor {
        said: be16_of(part(v, DESCRIPTOR_SAID, SAID_OCTETS)),
        kind: octet(v, DESCRIPTOR_TYPE),
        suite: be16_of(part(v, DESCRIPTOR_SUITE, SUITE_OCTETS)),
    }
}

fn descriptors_from(v: &[u8]) -> [Descriptor; SAIDS_MAX]
    ensures { result ≡ descriptors_from_of v.now }
{
    // four by name: `map` over the places asks more proof than this has lines
    [
        descriptor_from(part(v, FIRST_DESCRIPTOR, DESCRIPTOR)),
        descriptor_from(part(v, SECOND_DESCRIPTOR, DESCRIPTOR)),
        descriptor_from(part(v, THIRD_DESCRIPTOR, DESCRIPTOR)),
        descriptor_from(part(v, FOURTH_DESCRIPTOR, DESCRIPTOR)),
    ]
}

// The fields in the first 109 octets. What `s` lacks is zero.
pub fn fields_from(s: &[u8]) -> Fields
    ensures { result ≡ fields_from_of s.now }
{
    Fields {
        code: octet(s, FIELD_CODE),
        identifier: octet(s, FIELD_IDENTIFIER),
        ak: AkNumber(octet(s, FIELD_AK_NUMBER)),
        said: be16_of(part(s, FIELD_SAID, SAID_OCTETS)),
        life: be32_of(part(s, FIELD_LIFE, LIFE_OCTETS)),
        error: octet(s, FIELD_ERROR),
        count: usize::from(octet(s, FIELD_COUNT)),
        descriptors: descriptors_from(part(s, FIELD_DESCRIPTORS, DESCRIPTORS)),
        older: params_from(part(s, FIELD_OLDER, PARAMS)),
        newer: params_from(part(s, FIELD_NEWER, PARAMS)),
    }
}

fn put_key(out: &mut [u8], at: usize, k: KeyOctets) -> usize
    requires { at + 1 ≤ 4096 }
    ensures put { Put out.old at (key_laid k) result out.new }
    ensures value { result ≡ at + 17 }
{
    let a = put_octets(out, at, &[(k.width % 256) as u8]);
    put_octets(out, a, &k.octets)
}

fn put_params(out: &mut [u8], at: usize, p: Params) -> usize
    requires { at + 39 ≤ 4096 }
    ensures put { Put out.old at (params_laid p) result out.new }
    ensures value { result ≡ at + 39 }
{
    let a = put_octets(out, at, &[p.number.0]);
    let b = put_octets(out, a, &four_octets(p.life));
    let c = put_key(out, b, p.tek);
    put_key(out, c, p.vector)
}

fn put_descriptor(out: &mut [u8], at: usize, d: Descriptor) -> usize
    requires { at ≤ 4096 }
    ensures put { Put out.old at (descriptor_laid d) result out.new }
    ensures value { result ≡ at + 5 }
{
    let [said_high, said_low] = two_octets(usize::from(d.said));
    let [suite_high, suite_low] = two_octets(usize::from(d.suite));
    let all = [said_high, said_low, d.kind, suite_high, suite_low];
    put_octets(out, at, &all)
}

fn put_descriptors(out: &mut [u8], at: usize, ds: [Descriptor; SAIDS_MAX]) -> usize
    requires { at + 20 ≤ 4096 }
    ensures put { Put out.old at (descriptors_laid ds) result out.new }
    ensures value { result ≡ at + 20 }
{
    let mut end = at;
    for d in &ds {
        end = put_descriptor(out, end, *d);
    }
    end
}

// What stands before the descriptors.
fn put_head(out: &mut [u8], f: Fields) -> usize
    ensures put { Put out.old 0 (head_laid f) result out.new }
    ensures value { result ≡ 11 }
{
    let numbers = [f.code, f.identifier, f.ak.0, f.error, (f.count % 256) as u8];
    let a = put_octets(out, 0, &numbers);
    let b = put_octets(out, a, &two_octets(usize::from(f.said)));
    put_octets(out, b, &four_octets(f.life))
}

fn put_fields(out: &mut [u8], f: Fields) -> usize
    ensures put { Put out.old 0 (fields_octets f) result out.new }
    ensures value { result ≡ 109 }
{
    let a = put_head(out, f);
    let b = put_descriptors(out, a, f.descriptors);
    let c = put_params(out, b, f.older);
    put_params(out, c, f.newer)
}

fn put_place(out: &mut [u8], at: usize, p: Place) -> usize
    requires { at ≤ 4096 }
    ensures put { Put out.old at (place_laid p) result out.new }
    ensures value { result ≡ at + 4 }
{
    let [start_high, start_low] = two_octets(p.start);
    let [len_high, len_low] = two_octets(p.len);
    put_octets(out, at, &[start_high, start_low, len_high, len_low])
}

fn holds_octet(holds: bool) -> u8
    ensures { result ≡ holds_octet_of holds }
{
    if holds { DIGEST_YES } else { DIGEST_NO }
}

// The fields, the two places and whether the digest holds, in 118 octets.
pub fn put_reading(out: &mut [u8], r: Reading, holds: bool) -> usize
    ensures put { Put out.old 0 (reading_octets r holds) result out.new }
    ensures value { result ≡ 118 }
{
    let a = put_fields(out, r.fields);
    let b = put_place(out, a, r.key);
    let c = put_place(out, b, r.digest);
    put_octets(out, c, &[holds_octet(holds)])
}
