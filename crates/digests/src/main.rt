// Prints whether published digests come out as printed: FIPS 180 (SHA-1), RFC 2202 (HMAC-SHA-1), and document 000's I.4.3, I.5 and I.6. Each line has a
// digest's name, its octets in hexadecimal, and whether they are those that were printed.

#![tactic(auto)]

use digest_hmac::digest::digest_holds;
use digest_hmac::hmac::{hmac, hmac_part};
use digest_sha1::compress::compress;
use digest_sha1::message::{finish, sha1};
use digest_sha1::sizes::{BLOCK_OCTETS, DIGEST_OCTETS};
use digest_sha1::value::{Hash, initial, octets};
use std::io::{Print, Stdout};

// Two digits for each octet, and an end of line.
const LINE_OCTETS: usize = 41;

// The digit of a number below 16.
fn digit(n: u8) -> u8 {
    match n {
        0..=9 => b'0' + n,
        10..=15 => b'a' - 10 + n,
        _ => b'?',
    }
}

// The digest in hexadecimal, and an end of line.
fn line(d: [u8; DIGEST_OCTETS]) -> [u8; LINE_OCTETS] {
    let mut t = [b'\n'; LINE_OCTETS];
    for (i, x) in d.iter().enumerate() {
        t[2 * i] = digit(*x / 16);
        t[2 * i + 1] = digit(*x % 16);
    }
    t
}

// Puts octets out. That it fails is not looked at.
fn put(to: &Stdout, octets: &[u8]) {
    let _ = to.write_all(octets);
}

// Says whether something is so that has to be.
fn say(to: &Stdout, name: &[u8], is_so: bool) {
    put(to, name);
    if is_so {
        put(to, b": yes\n");
    } else {
        put(to, b": NO\n");
    }
}

// Whether a digest is the one that was printed.
fn is_printed(d: [u8; DIGEST_OCTETS], printed: &[u8]) -> bool {
    &d[..] == printed
}

// Says whether a digest is the one that was printed, and shows it.
fn show(to: &Stdout, name: &[u8], d: [u8; DIGEST_OCTETS], printed: &[u8]) {
    put(to, name);
    if is_printed(d, printed) {
        put(to, b": as printed, ");
    } else {
        put(to, b": NOT as printed, ");
    }
    put(to, &line(d));
}

// A million octets are 15,625 whole blocks.
const MILLION: usize = 1000000;

const MILLION_BLOCKS: usize = 15625;

// Shows the hash of a message.
fn show_sha1(to: &Stdout, name: &[u8], m: &[u8], printed: &[u8]) {
    show(to, name, octets(sha1(m)), printed);
}

// The hash of a million times "a", block by block; the last whole block leaves no octets.
fn million() -> Hash {
    let b = [b'a'; BLOCK_OCTETS];
    let mut h = initial();
    for _ in 0..MILLION_BLOCKS {
        h = compress(h, &b);
    }
    let none = [0u8; 0];
    finish(h, &none, MILLION)
}

// The five example messages of FIPS 180.
fn standard_messages(to: &Stdout) {
    show_sha1(
        to,
        b"FIPS 180, no octets",
        b"",
        b"\xda\x39\xa3\xee\x5e\x6b\x4b\x0d\x32\x55\xbf\xef\x95\x60\x18\x90\xaf\xd8\x07\x09",
    );
    show_sha1(
        to,
        b"FIPS 180, \"abc\"",
        b"abc",
        b"\xa9\x99\x3e\x36\x47\x06\x81\x6a\xba\x3e\x25\x71\x78\x50\xc2\x6c\x9c\xd0\xd8\x9d",
    );
    show_sha1(
        to,
        b"FIPS 180, 448 bits",
        b"abcdbcdecdefdefgefghfghighijhijkijkljklmklmnlmnomnopnopq",
        b"\x84\x98\x3e\x44\x1c\x3b\xd2\x6e\xba\xae\x4a\xa1\xf9\x51\x29\xe5\xe5\x46\x70\xf1",
    );
    show_sha1(
        to,
        b"FIPS 180, 896 bits",
        b"abcdefghbcdefghicdefghijdefghijkefghijklfghijklmghijklmnhijklmnoijklmnopjklmnopqklmnopqrlmnopqrsmnopqrstnopqrstu",
        b"\xa4\x9b\x24\x46\xa0\x2c\x64\x5b\xf4\x19\xf9\x95\xb6\x70\x91\x25\x3a\x04\xa2\x59",
    );
    show(
        to,
        b"FIPS 180, a million times \"a\"",
        octets(million()),
        b"\x34\xaa\x97\x3c\xd4\xc4\xda\xa4\xf6\x1e\xeb\x2b\xdb\xad\x27\x31\x65\x34\x01\x6f",
    );
}

// Shows the HMAC of a message.
fn show_hmac(to: &Stdout, name: &[u8], key: &[u8], m: &[u8], printed: &[u8]) {
    show(to, name, hmac(key, m), printed);
}

// Cases 1 to 5 of RFC 2202, whose keys fit a block.
fn short_keys(to: &Stdout) {
    show_hmac(
        to,
        b"RFC 2202, case 1",
        &[0x0bu8; 20],
        b"Hi There",
        b"\xb6\x17\x31\x86\x55\x05\x72\x64\xe2\x8b\xc0\xb6\xfb\x37\x8c\x8e\xf1\x46\xbe\x00",
    );
    show_hmac(
        to,
        b"RFC 2202, case 2",
        b"Jefe",
        b"what do ya want for nothing?",
        b"\xef\xfc\xdf\x6a\xe5\xeb\x2f\xa2\xd2\x74\x16\xd5\xf1\x84\xdf\x9c\x25\x9a\x7c\x79",
    );
    show_hmac(
        to,
        b"RFC 2202, case 3",
        &[0xaau8; 20],
        &[0xddu8; 50],
        b"\x12\x5d\x73\x42\xb9\xac\x11\xcd\x91\xa3\x9a\xf4\x8a\xa1\x7b\x4f\x63\xf1\x75\xd3",
    );
    show_hmac(
        to,
        b"RFC 2202, case 4",
        b"\x01\x02\x03\x04\x05\x06\x07\x08\x09\x0a\x0b\x0c\x0d\x0e\x0f\x10\x11\x12\x13\x14\x15\x16\x17\x18\x19",
        &[0xcdu8; 50],
        b"\x4c\x90\x07\xf4\x02\x62\x50\xc6\xbc\x84\x14\xf9\xbf\x50\xc8\x6c\x2d\x72\x35\xda",
    );
    show_hmac(
        to,
        b"RFC 2202, case 5",
        &[0x0cu8; 20],
        b"Test With Truncation",
        b"\x4c\x1a\x03\x42\x4b\x55\xe0\x7f\xe7\xf2\x7b\xe1\xd5\x8b\xb9\x32\x4a\x9a\x5a\x04",
    );
}

// Cases 6 and 7, whose keys are longer than a block.
fn long_keys(to: &Stdout) {
    show_hmac(
        to,
        b"RFC 2202, case 6",
        &[0xaau8; 80],
        b"Test Using Larger Than Block-Size Key - Hash Key First",
        b"\xaa\x4a\xe5\xe1\x52\x72\xd0\x0e\x95\x70\x56\x37\xce\x8a\x3b\x55\xed\x40\x21\x12",
    );
    show_hmac(
        to,
        b"RFC 2202, case 7",
        &[0xaau8; 80],
        b"Test Using Larger Than Block-Size Key and Larger Than One Block-Size Data",
        b"\xe8\xe9\x9d\x0f\x45\x23\x7d\x78\x6d\x6b\xba\xa7\x96\x5c\x78\x08\xbb\xff\x1a\x91",
    );
}

// The octets that are repeated before the authorization key in I.4.3, for each key that is derived.
const KEK_PAD: u8 = 0x53;

const UPSTREAM_PAD: u8 = 0x5c;

const DOWNSTREAM_PAD: u8 = 0x3a;

// A block of pad and an authorization key.
const DERIVED_OCTETS: usize = BLOCK_OCTETS + DIGEST_OCTETS;

// The digest attribute, which ends a message: type and length, and the digest.
const ATTRIBUTE_OCTETS: usize = 23;

// Shows a key derived from an authorization key: the hash of a block of pad and the key.
fn show_derived(to: &Stdout, name: &[u8], pad: u8, ak: &[u8; DIGEST_OCTETS], printed: &[u8]) {
    let b = [pad; BLOCK_OCTETS];
    show(
        to,
        name,
        octets(finish(compress(initial(), &b), ak, DERIVED_OCTETS)),
        printed,
    );
}

// Whether a message ends in the digest of what stands before its digest attribute.
fn holds(message: &[u8], key: &[u8]) -> bool {
    if message.len() < ATTRIBUTE_OCTETS {
        return false;
    }
    let upto = message.len() - ATTRIBUTE_OCTETS;
    let at = message.len() - DIGEST_OCTETS;
    digest_holds(message, upto, key, at)
}

// The digest of what stands before a message's digest attribute.
fn show_digest(to: &Stdout, name: &[u8], message: &[u8], key: &[u8], printed: &[u8]) {
    if message.len() < ATTRIBUTE_OCTETS {
        return;
    }
    let upto = message.len() - ATTRIBUTE_OCTETS;
    show(to, name, hmac_part(key, message, 0, upto), printed);
}

// The keys that I.4.3 derives; the last two are the keys of the digests of I.5 and I.6.
fn derived_keys(to: &Stdout) {
    let ak = b"\x4e\x85\x27\xff\xc4\x12\x72\x8e\x61\x84\xde\xc9\x20\xb6\xe0\x64\xf0\xbc\x0b\x75";
    show_derived(
        to,
        b"I.4.3.1, KEK",
        KEK_PAD,
        ak,
        b"\x76\xb4\xd4\x2f\x14\x98\x59\x6a\xab\xfe\x72\x94\x15\x7c\x7d\x62\xb0\xdf\xe6\x3b",
    );
    show_derived(
        to,
        b"I.4.3.2, upstream key",
        UPSTREAM_PAD,
        ak,
        b"\xfe\xb9\xf1\xe2\x46\xa7\x6d\x7c\xa7\x7b\x5e\xb0\x98\x25\xfd\x0b\x57\xca\x90\xc7",
    );
    show_derived(
        to,
        b"I.4.3.2, downstream key",
        DOWNSTREAM_PAD,
        ak,
        b"\x93\xd3\x9d\x70\xc3\xb6\xf5\x92\xc4\x6b\xd3\x92\x76\x46\xf4\xf1\x90\x3a\x52\xfd",
    );
}

// The Key Request of I.5, with its own key and with the other.
fn key_request(to: &Stdout, upstream: &[u8], downstream: &[u8]) {
    let message =
        b"\x07\x73\x00\xd0\x05\x00\xad\x01\x00\x0c\x30\x30\x30\x30\x30\x30\x31\x32\x33\x34\x35\x36\x02\x00\x03\x25\x53\x41\x03\x00\x06\x00\x00\xca\x01\x04\x01\x04\x00\x8c\x30\x81\x89\x02\x81\x81\x00\xe0\xe0\x6c\x8d\xbe\xb2\x8b\xc9\xf3\xa6\x3d\xa1\x12\xea\xf7\x99\xf7\x3d\x3e\xfa\xa3\xb1\xe2\x42\x95\x71\xb5\x71\xd2\x32\x7a\xda\x10\x40\xe2\x5b\x09\x74\x69\x08\x78\x46\x37\x71\x34\x3e\x69\xa7\x37\x6d\xf8\x70\x1d\xaa\xa5\x34\xb0\x33\xa3\x43\xac\x4d\xeb\x41\x5e\x0a\x8a\xfd\xa6\x0a\x4b\x09\x7f\x5a\x18\xf2\x9e\xc2\x22\xa6\x6b\x9a\x69\x73\x22\xd5\x37\xc9\x63\xb0\x88\xf5\x60\x5d\x99\x16\x33\x54\x53\x30\xed\x35\xde\x0c\x87\x3b\x54\xba\x59\x22\x3e\xb2\x79\x90\x96\x61\xdb\xf3\x4a\x37\x18\x4c\x7f\xa8\xca\xee\xd6\x31\x02\x03\x01\x00\x01\x0a\x00\x01\x07\x0c\x00\x02\x22\x60\x0b\x00\x14\x86\xb8\x33\xb7\x48\x9c\x4b\xa1\x51\x67\x44\xd7\xa6\xe6\xca\x21\x33\xf5\x22\x9e";
    show_digest(
        to,
        b"I.5, Key Request",
        message,
        upstream,
        b"\x86\xb8\x33\xb7\x48\x9c\x4b\xa1\x51\x67\x44\xd7\xa6\xe6\xca\x21\x33\xf5\x22\x9e",
    );
    say(
        to,
        b"I.5, the digest in the message holds",
        holds(message, upstream),
    );
    say(
        to,
        b"I.5, it does not hold with the downstream key",
        !holds(message, downstream),
    );
}

// The Key Reply of I.6, with its own key and with the other, and with one octet of its digest changed.
fn key_reply(to: &Stdout, upstream: &[u8], downstream: &[u8]) {
    let message =
        b"\x08\x73\x00\x68\x0a\x00\x01\x07\x0c\x00\x02\x22\x60\x0d\x00\x21\x08\x00\x08\xb6\x4d\x54\x8c\x3f\x6b\x25\x69\x09\x00\x04\x00\x00\xa8\xc0\x0a\x00\x01\x02\x0f\x00\x08\x81\x0e\x52\x8e\x1c\x5f\xda\x1a\x0d\x00\x21\x08\x00\x08\x5e\xbd\x03\xaa\x5e\xd5\xe2\x94\x09\x00\x04\x00\x01\x51\x80\x0a\x00\x01\x03\x0f\x00\x08\x25\x35\x67\xc3\x09\x21\x8c\x2c\x0b\x00\x14\xa5\xe3\x33\x25\xea\x72\xf8\x50\x1c\x2a\xb6\x65\x45\x6b\xcc\xde\x8b\x4f\x22\x02";
    let changed =
        b"\x08\x73\x00\x68\x0a\x00\x01\x07\x0c\x00\x02\x22\x60\x0d\x00\x21\x08\x00\x08\xb6\x4d\x54\x8c\x3f\x6b\x25\x69\x09\x00\x04\x00\x00\xa8\xc0\x0a\x00\x01\x02\x0f\x00\x08\x81\x0e\x52\x8e\x1c\x5f\xda\x1a\x0d\x00\x21\x08\x00\x08\x5e\xbd\x03\xaa\x5e\xd5\xe2\x94\x09\x00\x04\x00\x01\x51\x80\x0a\x00\x01\x03\x0f\x00\x08\x25\x35\x67\xc3\x09\x21\x8c\x2c\x0b\x00\x14\xa5\xe3\x33\x25\xea\x72\xf8\x50\x1c\x2a\xb6\x65\x45\x6b\xcc\xde\x8b\x4f\x22\x03";
    show_digest(
        to,
        b"I.6, Key Reply",
        message,
        downstream,
        b"\xa5\xe3\x33\x25\xea\x72\xf8\x50\x1c\x2a\xb6\x65\x45\x6b\xcc\xde\x8b\x4f\x22\x02",
    );
    say(
        to,
        b"I.6, the digest in the message holds",
        holds(message, downstream),
    );
    say(
        to,
        b"I.6, it does not hold with the upstream key",
        !holds(message, upstream),
    );
    say(
        to,
        b"I.6, it does not hold with its last octet changed",
        !holds(changed, downstream),
    );
}

fn main(rt: HostRuntime) {
    let to = rt.stdout();
    let upstream =
        b"\xfe\xb9\xf1\xe2\x46\xa7\x6d\x7c\xa7\x7b\x5e\xb0\x98\x25\xfd\x0b\x57\xca\x90\xc7";
    let downstream =
        b"\x93\xd3\x9d\x70\xc3\xb6\xf5\x92\xc4\x6b\xd3\x92\x76\x46\xf4\xf1\x90\x3a\x52\xfd";
    standard_messages(&to);
    short_keys(&to);
    long_keys(&to);
    derived_keys(&to);
    key_request(&to, upstream, downstream);
    key_reply(&to, upstream, downstream);
}
