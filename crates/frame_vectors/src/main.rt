// Prints whether published ciphertexts come out as printed: of FIPS 197 the last round key of A.1 and the blocks of B and C.1, and of document 000 the blocks and
// frames of I.10. Most stand behind the 12 clear octets of a frame; a line has what was sealed, whether it is what was printed, and whether it opens again.
// The key and the whole blocks of CFB, which no frame has, are worked out by the cipher alone.

#![tactic(auto)]

ghost use Rattle.std.specs.Prelude.{◌<◌};

use cipher_aes::encryption::{add_round_key, encrypt};
use cipher_aes::keys::expand;
use cipher_aes::sizes::{BLOCK_OCTETS, ROUNDS};
use cipher_aes::words::State;
use cipher_cbc::block::{load, store};
use cipher_cbc::exported::{DONE, cipher_cbc_open, cipher_cbc_seal};
use std::io::{Print, Stdout};

// More octets than any frame here has.
const ROOM: usize = 64;

// The digit of a number below 16.
fn digit(n: u8) -> u8
    requires { n < 16 }
{
    if n < 10 { n + b'0' } else { n - 10 + b'a' }
}

// That writing fails is not looked at.
fn print(to: &Stdout, text: &[u8]) {
    let _ = to.write_all(text);
}

fn print_octet(to: &Stdout, x: u8) {
    let d = [digit(x / 16), digit(x % 16)];
    print(to, &d);
}

fn print_octets(to: &Stdout, s: &[u8]) {
    for x in s {
        print_octet(to, *x);
    }
}

// Seals a frame, shows it, and says whether it is `printed` and whether opening gives the frame back.
fn show_frame(to: &Stdout, name: &[u8], key: &[u8], vector: &[u8], frame: &[u8], printed: &[u8]) {
    let mut out = [0u8; ROOM];
    let mut back = [0u8; ROOM];
    let n = frame.len();
    if ROOM < n {
        return;
    }
    let sealed = cipher_cbc_seal(key, vector, frame, &mut out);
    let opened = cipher_cbc_open(key, vector, &out[..n], &mut back);
    print(to, name);
    print(to, b": ");
    print_octets(to, &out[..n]);
    if (sealed == DONE) & (&out[..n] == printed) {
        print(to, b" as printed");
    } else {
        print(to, b" DIFFERS");
    }
    if (opened == DONE) & (&back[..n] == frame) {
        print(to, b", opened\n");
    } else {
        print(to, b", NOT OPENED\n");
    }
}

// The last round key of FIPS 197, A.1.
fn show_last_key(to: &Stdout) {
    let key = State {
        a: 0x2b7e1516,
        b: 0x28aed2a6,
        c: 0xabf71588,
        d: 0x09cf4f3c,
    };
    let keys = expand(key);
    let mut out = [0u8; BLOCK_OCTETS];
    store(&mut out, 0, keys[ROUNDS]);
    print(to, b"FIPS 197 A.1: ");
    print_octets(to, &out);
    if &out == b"\xd0\x14\xf9\xa8\xc9\xee\x25\x89\xe1\x3f\x0c\xc8\xb6\x63\x0c\xa6" {
        print(to, b" as printed\n");
    } else {
        print(to, b" DIFFERS\n");
    }
}

// A whole block of CFB: `plain` added to the forward cipher of the vector. Of n octets padded with zeros, the first n are their residual block (11.1).
fn residual_row(
    to: &Stdout,
    name: &[u8],
    key: &[u8; BLOCK_OCTETS],
    vector: &[u8; BLOCK_OCTETS],
    plain: &[u8; BLOCK_OCTETS],
    printed: &[u8],
) {
    let keys = expand(load(key, 0));
    let mut out = [0u8; BLOCK_OCTETS];
    store(
        &mut out,
        0,
        add_round_key(load(plain, 0), encrypt(&keys, load(vector, 0))),
    );
    print(to, name);
    print(to, b": ");
    print_octets(to, &out);
    if &out[..] == printed {
        print(to, b" as printed\n");
    } else {
        print(to, b" DIFFERS\n");
    }
}

// One block under a vector of zeros is the cipher alone: FIPS 197, B and C.1.
fn standard_blocks(to: &Stdout) {
    let zeros = [0u8; BLOCK_OCTETS];
    show_frame(
        to,
        b"FIPS 197 B",
        b"\x2b\x7e\x15\x16\x28\xae\xd2\xa6\xab\xf7\x15\x88\x09\xcf\x4f\x3c",
        &zeros,
        b"\x01\x02\x03\x04\x05\x06\xf1\xf2\xf3\xf4\xf5\xf6\x32\x43\xf6\xa8\x88\x5a\x30\x8d\x31\x31\x98\xa2\xe0\x37\x07\x34",
        b"\x01\x02\x03\x04\x05\x06\xf1\xf2\xf3\xf4\xf5\xf6\x39\x25\x84\x1d\x02\xdc\x09\xfb\xdc\x11\x85\x97\x19\x6a\x0b\x32",
    );
    show_frame(
        to,
        b"FIPS 197 C.1",
        b"\x00\x01\x02\x03\x04\x05\x06\x07\x08\x09\x0a\x0b\x0c\x0d\x0e\x0f",
        &zeros,
        b"\x01\x02\x03\x04\x05\x06\xf1\xf2\xf3\xf4\xf5\xf6\x00\x11\x22\x33\x44\x55\x66\x77\x88\x99\xaa\xbb\xcc\xdd\xee\xff",
        b"\x01\x02\x03\x04\x05\x06\xf1\xf2\xf3\xf4\xf5\xf6\x69\xc4\xe0\xd8\x6a\x7b\x04\x30\xd8\xcd\xb7\x80\x70\xb4\xc5\x5a",
    );
}

// The block of I.10.1, and 15 octets of the CFB block of I.10.2: a frame with less than a block behind its addresses takes the forward cipher of the vector.
fn printed_blocks(to: &Stdout) {
    let key = b"\x01\x23\x45\x67\x89\xab\xcd\xef\x01\x23\x45\x67\x89\xab\xcd\xef";
    let vector = b"\x12\x34\x56\x78\x90\xab\xcd\xef\x12\x34\x56\x78\x90\xab\xcd\xef";
    show_frame(
        to,
        b"I.10.1 block",
        key,
        vector,
        b"\x01\x02\x03\x04\x05\x06\xf1\xf2\xf3\xf4\xf5\xf6\x4e\x6f\x77\x20\x69\x73\x20\x74\x68\x65\x20\x74\x69\x6d\x65\x20",
        b"\x01\x02\x03\x04\x05\x06\xf1\xf2\xf3\xf4\xf5\xf6\x7d\x51\xac\xd5\xb3\x79\xac\x2f\x8f\x46\xf3\x1c\xaf\xd7\x91\xb4",
    );
    show_frame(
        to,
        b"I.10.2 15 octets",
        key,
        vector,
        b"\x01\x02\x03\x04\x05\x06\xf1\xf2\xf3\xf4\xf5\xf6\x4e\x6f\x77\x20\x69\x73\x20\x74\x68\x65\x20\x74\x69\x6d\x65",
        b"\x01\x02\x03\x04\x05\x06\xf1\xf2\xf3\xf4\xf5\xf6\x43\xbc\x0a\xd0\xfc\x8d\x93\xff\x80\xe0\xbf\xf1\x41\xfc\x67",
    );
}

// The frames of I.10.1 to I.10.3, and one that is its addresses alone.
fn printed_frames(to: &Stdout) {
    let key = b"\xe6\x60\x0f\xd8\x85\x2e\xf5\xab\xe6\x60\x0f\xd8\x85\x2e\xf5\xab";
    let vector = b"\x81\x0e\x52\x8e\x1c\x5f\xda\x1a\x81\x0e\x52\x8e\x1c\x5f\xda\x1a";
    show_frame(
        to,
        b"I.10.1 PDU",
        key,
        vector,
        b"\x01\x02\x03\x04\x05\x06\xf1\xf2\xf3\xf4\xf5\xf6\x00\x01\x02\x03\x04\x05\x06\x07\x08\x09\x0a\x0b\x88\x41\x65\x06",
        b"\x01\x02\x03\x04\x05\x06\xf1\xf2\xf3\xf4\xf5\xf6\x5a\x79\xba\xca\x6a\x2d\x38\x99\x11\x76\xe3\x11\x9f\xf1\x19\xc7",
    );
    show_frame(
        to,
        b"I.10.2 PDU",
        key,
        vector,
        b"\x01\x02\x03\x04\x05\x06\xf1\xf2\xf3\xf4\xf5\xf6\x00\x01\x02\x03\x04\x05\x06\x07\x08\x09\x0a\x0b\x0c\x0d\x0e\x91\xd2\xd1\x9f",
        b"\x01\x02\x03\x04\x05\x06\xf1\xf2\xf3\xf4\xf5\xf6\x9d\xd1\x67\x4b\xba\x61\x10\x1b\x56\x75\x64\x74\x36\x4f\x10\x1d\x44\xd4\x73",
    );
    show_frame(
        to,
        b"I.10.3 PDU",
        key,
        vector,
        b"\x01\x02\x03\x04\x05\x06\xf1\xf2\xf3\xf4\xf5\xf6\x00\x01\x02\x88\xee\x59\x7e",
        b"\x01\x02\x03\x04\x05\x06\xf1\xf2\xf3\xf4\xf5\xf6\xfc\x68\xa3\x55\x60\x37\xdc",
    );
    show_frame(
        to,
        b"12 octets",
        key,
        vector,
        b"\x01\x02\x03\x04\x05\x06\xf1\xf2\xf3\xf4\xf5\xf6",
        b"\x01\x02\x03\x04\x05\x06\xf1\xf2\xf3\xf4\xf5\xf6",
    );
}

// The whole blocks that I.10.2 and I.10.3 print: that of CFB, and the residual blocks of their frames, padded with zeros.
fn printed_residuals(to: &Stdout) {
    let key = b"\xe6\x60\x0f\xd8\x85\x2e\xf5\xab\xe6\x60\x0f\xd8\x85\x2e\xf5\xab";
    residual_row(
        to,
        b"I.10.2 CFB block",
        b"\x01\x23\x45\x67\x89\xab\xcd\xef\x01\x23\x45\x67\x89\xab\xcd\xef",
        b"\x12\x34\x56\x78\x90\xab\xcd\xef\x12\x34\x56\x78\x90\xab\xcd\xef",
        b"\x4e\x6f\x77\x20\x69\x73\x20\x74\x68\x65\x20\x74\x69\x6d\x65\x20",
        b"\x43\xbc\x0a\xd0\xfc\x8d\x93\xff\x80\xe0\xbf\xf1\x41\xfc\x67\x08",
    );
    residual_row(
        to,
        b"I.10.2 padded",
        key,
        b"\x9d\xd1\x67\x4b\xba\x61\x10\x1b\x56\x75\x64\x74\x36\x4f\x10\x1d",
        b"\xd2\xd1\x9f\x00\x00\x00\x00\x00\x00\x00\x00\x00\x00\x00\x00\x00",
        b"\x44\xd4\x73\xdd\x83\x9c\xee\x46\x4c\xff\x83\xb7\x27\x96\xd6\x55",
    );
    residual_row(
        to,
        b"I.10.3 padded",
        key,
        b"\x81\x0e\x52\x8e\x1c\x5f\xda\x1a\x81\x0e\x52\x8e\x1c\x5f\xda\x1a",
        b"\x00\x01\x02\x88\xee\x59\x7e\x00\x00\x00\x00\x00\x00\x00\x00\x00",
        b"\xfc\x68\xa3\x55\x60\x37\xdc\xd7\x4c\x6e\x5c\x5e\x50\xd5\x98\xb2",
    );
}

fn main(rt: HostRuntime) {
    let to = rt.stdout();
    show_last_key(&to);
    standard_blocks(&to);
    printed_blocks(&to);
    printed_frames(&to);
    printed_residuals(&to);
}
