// Prints whether the messages of document 000's appendix I are read and written as it says, their digests too: I.4, I.5 and I.6.

#![tactic(auto)]

use key_traffic::suites::{SUITE_DES, WIDTH_DES};
use message_attributes::octets::part;
use message_digest::digest::is_digest_right;
use message_reader::read::read_alone;
use message_rules::codes::{
    ANSWER_OCTETS, CODE_AUTHORIZATION_REPLY, CODE_KEY_REPLY, CODE_KEY_REQUEST, DIGEST_OCTETS,
};
use message_rules::fields::{Descriptor, Fields, KeyOctets, Params, Place, Receiver};
use message_writer::write::write;
use questions::refusal::Answer;
use std::io::{Print, Stdout};

// What all three messages carry.
const AK_NUMBER: u8 = 7;

const SAID: u16 = 8800;

// What I.4 carries.
const I4_IDENTIFIER: u8 = 1;

const I4_LIFE: u64 = 604800;

const I4_DESCRIPTORS: usize = 1;

const I4_SA_TYPE: u8 = 0;

const I4_AUTH_KEY_START: usize = 7;

const I4_AUTH_KEY_OCTETS: usize = 256;

// The Identifier of I.5 and I.6, and where their digests start.
const KEY_IDENTIFIER: u8 = 115;

const I5_DIGEST_START: usize = 192;

const I6_DIGEST_START: usize = 88;

// The two keys of I.6.
const I6_OLDER_NUMBER: u8 = 2;

const I6_OLDER_LIFE: u64 = 43200;

const I6_NEWER_NUMBER: u8 = 3;

const I6_NEWER_LIFE: u64 = 86400;

// Puts octets out. That it fails is not looked at.
fn put(to: &Stdout, octets: &[u8]) {
    let _ = to.write_all(octets);
}

fn say(to: &Stdout, name: &[u8], what: &[u8], is_so: bool) {
    put(to, name);
    put(to, what);
    put(to, if is_so { b" agrees\n" } else { b" differs\n" });
}

// Whether a TEK or a vector has 8 octets, with zeros after them.
fn has_octets(k: KeyOctets, octets: &[u8]) -> bool {
    k.width == WIDTH_DES
        && &k.octets[..WIDTH_DES] == octets
        && k.octets[WIDTH_DES..].iter().all(|x| *x == 0)
}

fn is_at(p: Place, start: usize, len: usize) -> bool {
    (p.start == start) & (p.len == len)
}

fn is_empty(p: Params) -> bool {
    (p.number.0 == 0) & (p.life == 0) & (p.tek.width == 0) & (p.vector.width == 0)
}

fn is_zero(d: Descriptor) -> bool {
    (d.said == 0) & (d.kind == 0) & (d.suite == 0)
}

// What every message of these carries, and the error, which none does.
fn compare_head(to: &Stdout, name: &[u8], f: Fields, answer: Answer, code: u8, identifier: u8) {
    say(to, name, b"answer of the reading", answer.is_ok());
    say(to, name, b"code", f.code == code);
    say(to, name, b"identifier", f.identifier == identifier);
    say(to, name, b"authorization key number", f.ak.0 == AK_NUMBER);
    say(to, name, b"error (not carried)", f.error == 0);
}

fn compare_params(
    to: &Stdout,
    name: &[u8],
    p: Params,
    number: u8,
    life: u64,
    tek: &[u8],
    vector: &[u8],
) {
    say(to, name, b"number", p.number.0 == number);
    say(to, name, b"life", p.life == life);
    say(to, name, b"TEK", has_octets(p.tek, tek));
    say(to, name, b"vector", has_octets(p.vector, vector));
}

fn compare_no_params(to: &Stdout, name: &[u8], f: Fields) {
    say(
        to,
        name,
        b"TEK-Parameters (not carried)",
        is_empty(f.older) & is_empty(f.newer),
    );
}

fn compare_no_descriptors(to: &Stdout, name: &[u8], f: Fields) {
    let none = f.descriptors.iter().all(|d| is_zero(*d));
    say(
        to,
        name,
        b"SA-Descriptors (not carried)",
        none & (f.count == 0),
    );
}

// Whether the fields are written as `m`, octet for octet, with the digest that `key` gives.
fn is_written_again(f: Fields, auth_key: &[u8], key: &[u8], m: &[u8]) -> bool {
    let mut out = [0u8; ANSWER_OCTETS];
    match write(f, auth_key, key, &mut out) {
        Ok(count) => part(&out, 0, count) == m,
        Err(_) => false,
    }
}

// Its digest holds under the message key of its direction, and not under the other's.
fn compare_digest(to: &Stdout, name: &[u8], m: &[u8], digest: Place, key: &[u8], other: &[u8]) {
    say(to, name, b"digest", is_digest_right(m, digest, key));
    let differs = !is_digest_right(m, digest, other);
    say(to, name, b"digest under the other key (fails)", differs);
}

// The one SA-Descriptor of I.4.
fn compare_descriptor(to: &Stdout, name: &[u8], f: Fields) {
    let first = f.descriptors[0];
    say(
        to,
        name,
        b"count of SA-Descriptors",
        f.count == I4_DESCRIPTORS,
    );
    say(to, name, b"SAID of the SA-Descriptor", first.said == SAID);
    say(
        to,
        name,
        b"SA type of the SA-Descriptor",
        first.kind == I4_SA_TYPE,
    );
    say(
        to,
        name,
        b"suite of the SA-Descriptor",
        first.suite == SUITE_DES,
    );
    say(
        to,
        name,
        b"other three SA-Descriptors (not carried)",
        f.descriptors[1..].iter().all(|d| is_zero(*d)),
    );
}

// I.4. `m` has its octets, `auth_key` those of I.4.2. Most rows of the AUTH-Key are lost in this copy of I.4, and were taken from I.4.2; what is left of them
// agrees. In I.4.2 letters stand for digits too: G for the 6 of e6, Greek and Cyrillic ones elsewhere; the second octet of each row is
// printed over two columns, as 7e B 39 for 7e b9, which I.4 has whole. In the life of I.4 a letter stands for the 3 of 3a.
fn authorization_reply(to: &Stdout, m: &[u8], auth_key: &[u8], down: &[u8]) {
    let name = b"I.4 Authorization Reply: ";
    let r = read_alone(Receiver::Modem, m);
    let f = r.fields;
    compare_head(
        to,
        name,
        f,
        r.answer,
        CODE_AUTHORIZATION_REPLY,
        I4_IDENTIFIER,
    );
    say(to, name, b"life", f.life == I4_LIFE);
    say(to, name, b"SAID (not carried)", f.said == 0);
    compare_descriptor(to, name, f);
    compare_no_params(to, name, f);
    say(
        to,
        name,
        b"AUTH-Key's place",
        is_at(r.key, I4_AUTH_KEY_START, I4_AUTH_KEY_OCTETS),
    );
    say(
        to,
        name,
        b"AUTH-Key",
        part(m, r.key.start, r.key.len) == auth_key,
    );
    say(
        to,
        name,
        b"digest's place (not carried)",
        is_at(r.digest, 0, 0),
    );
    let again = is_written_again(f, auth_key, down, m);
    say(to, name, b"message written again", again);
}

// What I.5 and I.6 share: Identifier, SAID, and no life and no descriptors.
fn compare_front(to: &Stdout, name: &[u8], f: Fields, answer: Answer, code: u8) {
    compare_head(to, name, f, answer, code, KEY_IDENTIFIER);
    say(to, name, b"life (not carried)", f.life == 0);
    say(to, name, b"SAID", f.said == SAID);
    compare_no_descriptors(to, name, f);
}

fn compare_places(to: &Stdout, name: &[u8], key: Place, digest: Place, at: usize) {
    say(
        to,
        name,
        b"AUTH-Key's place (not carried)",
        is_at(key, 0, 0),
    );
    say(
        to,
        name,
        b"digest's place",
        is_at(digest, at, DIGEST_OCTETS),
    );
}

// I.5. `m` has its octets. In this copy letters stand for digits: Cyrillic ones in ca, a6 and e6, and l for the 1 of the digest's a1.
// Two rows are run together as "b2 00 79 01 90 ..": taken as b2 79 90 .. 03 01, then 00 01. Of the digest's row 0b, 14, f5 and
// 9e are lost and 22 stands in front: its 20 octets are taken from I.5.1. The public key's modulus begins with e0 once in this copy and twice in
// the input of I.5.1: taken as twice, as its length of 140 asks, and the digest that I.5.1 gives is that of these octets.
// `standard` is the message without its CM-Identification, which the writer does not write; its digest was worked out by another program.
fn key_request(to: &Stdout, m: &[u8], standard: &[u8], up: &[u8], down: &[u8]) {
    let name = b"I.5 Key Request: ";
    let r = read_alone(Receiver::HeadEnd, m);
    let f = r.fields;
    compare_front(to, name, f, r.answer, CODE_KEY_REQUEST);
    compare_no_params(to, name, f);
    compare_places(to, name, r.key, r.digest, I5_DIGEST_START);
    compare_digest(to, name, m, r.digest, up, down);
    let again = is_written_again(f, b"", up, standard);
    say(
        to,
        name,
        b"message written again (without CM-Identification)",
        again,
    );
}

fn compare_older(to: &Stdout, p: Params) {
    compare_params(
        to,
        b"I.6 Key Reply: older ",
        p,
        I6_OLDER_NUMBER,
        I6_OLDER_LIFE,
        b"\xb6\x4d\x54\x8c\x3f\x6b\x25\x69",
        b"\x81\x0e\x52\x8e\x1c\x5f\xda\x1a",
    );
}

fn compare_newer(to: &Stdout, p: Params) {
    compare_params(
        to,
        b"I.6 Key Reply: newer ",
        p,
        I6_NEWER_NUMBER,
        I6_NEWER_LIFE,
        b"\x5e\xbd\x03\xaa\x5e\xd5\xe2\x94",
        b"\x25\x35\x67\xc3\x09\x21\x8c\x2c",
    );
}

// I.6. `m` has its octets. In this copy the letter O stands for the 0 of 0f and 0b.
fn key_reply(to: &Stdout, m: &[u8], up: &[u8], down: &[u8]) {
    let name = b"I.6 Key Reply: ";
    let r = read_alone(Receiver::Modem, m);
    let f = r.fields;
    compare_front(to, name, f, r.answer, CODE_KEY_REPLY);
    compare_older(to, f.older);
    compare_newer(to, f.newer);
    compare_places(to, name, r.key, r.digest, I6_DIGEST_START);
    compare_digest(to, name, m, r.digest, down, up);
    let again = is_written_again(f, b"", down, m);
    say(to, name, b"message written again", again);
}

// The message keys of both directions are as I.4.3 prints them: 64 octets of padding before the AK give these, the 63 that its text tells do not.
fn main(rt: HostRuntime) {
    let to = rt.stdout();
    let up = b"\xfe\xb9\xf1\xe2\x46\xa7\x6d\x7c\xa7\x7b\x5e\xb0\x98\x25\xfd\x0b\x57\xca\x90\xc7";
    let down = b"\x93\xd3\x9d\x70\xc3\xb6\xf5\x92\xc4\x6b\xd3\x92\x76\x46\xf4\xf1\x90\x3a\x52\xfd";
    let auth_key =
        b"\x28\x27\x55\xdb\xf5\x22\x67\x82\x52\x12\x07\x31\xd2\xb4\x4d\x35\x8f\x5f\xf6\x51\x54\x7e\xa3\x5c\xdd\xb9\x11\xb9\x7f\x92\x1e\xb7\x7e\x47\x77\xb1\x4a\xfe\xd2\xab\x83\xad\xae\x29\x8a\x22\x06\x0a\x76\xf4\xd7\xc3\xcb\x80\x45\x1f\x99\x44\x7e\xb9\x50\x90\xf9\xbd\xd4\xb5\x2e\x25\xd1\xe6\x4c\xa7\xe9\x45\x0d\xb1\xe9\x63\x45\x38\xf6\xd9\x83\x79\x82\x3c\x7b\x93\x80\x8f\xdd\x3d\x0b\x32\xe3\x4c\x97\x7d\x8b\x82\xf0\x16\x17\xfb\xf1\x67\x2e\xee\x39\x57\x39\xb1\x20\xeb\x13\xb0\xe1\xd2\x90\x02\x03\x2c\xca\xf9\x3c\xa3\xc1\x6a\xce\x9a\x5d\xbe\xed\xf2\x6e\x86\x2f\x57\x63\x3b\xfe\x13\xdb\xd1\xfe\xf0\x1e\x3e\x9b\xd1\x45\x23\xf6\xf3\x47\x6f\x87\x61\x01\x01\x57\xc7\xce\xf3\xd9\xa1\x14\x05\xdc\x39\xfa\xb8\xbe\xe6\x25\x21\xf4\xfe\xbe\x32\x3d\x6c\x96\x87\xde\x17\xaf\xf1\x0a\x83\x35\x19\x93\xc8\x3d\x89\xbe\x17\x7b\x36\xca\x69\x17\x10\x9b\xe1\x19\x24\xf4\x22\x54\x6e\xf3\x04\x38\x1e\xb9\x3c\x5a\x3b\xe0\x6f\x05\x55\xe4\x85\xc5\xf9\x81\x13\x9d\xe7\xa9\x8c\x42\x07\x69\x12\xf8\x2b\x80\x2d\x6f\x65\xe9\x4f\x93\x09\xb3\xc1\x1e\xdd\x89\x68\x95\x20";
    let i4 =
        b"\x05\x01\x01\x1f\x07\x01\x00\x28\x27\x55\xdb\xf5\x22\x67\x82\x52\x12\x07\x31\xd2\xb4\x4d\x35\x8f\x5f\xf6\x51\x54\x7e\xa3\x5c\xdd\xb9\x11\xb9\x7f\x92\x1e\xb7\x7e\x47\x77\xb1\x4a\xfe\xd2\xab\x83\xad\xae\x29\x8a\x22\x06\x0a\x76\xf4\xd7\xc3\xcb\x80\x45\x1f\x99\x44\x7e\xb9\x50\x90\xf9\xbd\xd4\xb5\x2e\x25\xd1\xe6\x4c\xa7\xe9\x45\x0d\xb1\xe9\x63\x45\x38\xf6\xd9\x83\x79\x82\x3c\x7b\x93\x80\x8f\xdd\x3d\x0b\x32\xe3\x4c\x97\x7d\x8b\x82\xf0\x16\x17\xfb\xf1\x67\x2e\xee\x39\x57\x39\xb1\x20\xeb\x13\xb0\xe1\xd2\x90\x02\x03\x2c\xca\xf9\x3c\xa3\xc1\x6a\xce\x9a\x5d\xbe\xed\xf2\x6e\x86\x2f\x57\x63\x3b\xfe\x13\xdb\xd1\xfe\xf0\x1e\x3e\x9b\xd1\x45\x23\xf6\xf3\x47\x6f\x87\x61\x01\x01\x57\xc7\xce\xf3\xd9\xa1\x14\x05\xdc\x39\xfa\xb8\xbe\xe6\x25\x21\xf4\xfe\xbe\x32\x3d\x6c\x96\x87\xde\x17\xaf\xf1\x0a\x83\x35\x19\x93\xc8\x3d\x89\xbe\x17\x7b\x36\xca\x69\x17\x10\x9b\xe1\x19\x24\xf4\x22\x54\x6e\xf3\x04\x38\x1e\xb9\x3c\x5a\x3b\xe0\x6f\x05\x55\xe4\x85\xc5\xf9\x81\x13\x9d\xe7\xa9\x8c\x42\x07\x69\x12\xf8\x2b\x80\x2d\x6f\x65\xe9\x4f\x93\x09\xb3\xc1\x1e\xdd\x89\x68\x95\x20\x09\x00\x04\x00\x09\x3a\x80\x0a\x00\x01\x07\x17\x00\x0e\x0c\x00\x02\x22\x60\x18\x00\x01\x00\x14\x00\x02\x01\x00";
    let i5 =
        b"\x07\x73\x00\xd0\x05\x00\xad\x01\x00\x0c\x30\x30\x30\x30\x30\x30\x31\x32\x33\x34\x35\x36\x02\x00\x03\x25\x53\x41\x03\x00\x06\x00\x00\xca\x01\x04\x01\x04\x00\x8c\x30\x81\x89\x02\x81\x81\x00\xe0\xe0\x6c\x8d\xbe\xb2\x8b\xc9\xf3\xa6\x3d\xa1\x12\xea\xf7\x99\xf7\x3d\x3e\xfa\xa3\xb1\xe2\x42\x95\x71\xb5\x71\xd2\x32\x7a\xda\x10\x40\xe2\x5b\x09\x74\x69\x08\x78\x46\x37\x71\x34\x3e\x69\xa7\x37\x6d\xf8\x70\x1d\xaa\xa5\x34\xb0\x33\xa3\x43\xac\x4d\xeb\x41\x5e\x0a\x8a\xfd\xa6\x0a\x4b\x09\x7f\x5a\x18\xf2\x9e\xc2\x22\xa6\x6b\x9a\x69\x73\x22\xd5\x37\xc9\x63\xb0\x88\xf5\x60\x5d\x99\x16\x33\x54\x53\x30\xed\x35\xde\x0c\x87\x3b\x54\xba\x59\x22\x3e\xb2\x79\x90\x96\x61\xdb\xf3\x4a\x37\x18\x4c\x7f\xa8\xca\xee\xd6\x31\x02\x03\x01\x00\x01\x0a\x00\x01\x07\x0c\x00\x02\x22\x60\x0b\x00\x14\x86\xb8\x33\xb7\x48\x9c\x4b\xa1\x51\x67\x44\xd7\xa6\xe6\xca\x21\x33\xf5\x22\x9e";
    let standard =
        b"\x07\x73\x00\x20\x0a\x00\x01\x07\x0c\x00\x02\x22\x60\x0b\x00\x14\x67\x6d\x60\x32\xcb\x3c\x81\x73\x9c\xbd\x77\x2e\xfe\x8f\xee\x49\x9a\x4b\xde\x62";
    let i6 =
        b"\x08\x73\x00\x68\x0a\x00\x01\x07\x0c\x00\x02\x22\x60\x0d\x00\x21\x08\x00\x08\xb6\x4d\x54\x8c\x3f\x6b\x25\x69\x09\x00\x04\x00\x00\xa8\xc0\x0a\x00\x01\x02\x0f\x00\x08\x81\x0e\x52\x8e\x1c\x5f\xda\x1a\x0d\x00\x21\x08\x00\x08\x5e\xbd\x03\xaa\x5e\xd5\xe2\x94\x09\x00\x04\x00\x01\x51\x80\x0a\x00\x01\x03\x0f\x00\x08\x25\x35\x67\xc3\x09\x21\x8c\x2c\x0b\x00\x14\xa5\xe3\x33\x25\xea\x72\xf8\x50\x1c\x2a\xb6\x65\x45\x6b\xcc\xde\x8b\x4f\x22\x02";
    authorization_reply(&to, i4, auth_key, down);
    key_request(&to, i5, standard, up, down);
    key_reply(&to, i6, up, down);
}
