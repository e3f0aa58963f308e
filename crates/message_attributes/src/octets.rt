// Octets of a value: one, a number of two or of four (the higher first), a key's, and a part of a slice. Past the end they are 0.
ghost use Rattle.std.specs.Prelude.{◌≡◌, ◌≤◌, length, get_or, take, drop};
ghost use Rattle.key_traffic.specs.Octets.{padded};
ghost use Rattle.message_rules.specs.Attributes.{be16, be32};
ghost use Rattle.message_rules.specs.Fields.{key_octets_of};

use key_traffic::octets::{KEY_OCTETS, octets};
use key_traffic::suites::{WIDTH_AES, WIDTH_DES};
use message_rules::fields::KeyOctets;

// The octet at a place. By branches, as `part` below: with `get(at).copied().unwrap_or(0)` here and `min` there a reading takes 13% longer.
pub fn octet(s: &[u8], at: usize) -> u8
    ensures { result ≡ get_or s.now at 0 }
{
    if at < s.len() { s[at] } else { 0 }
}

// The number in the first two octets.
pub fn be16_of(v: &[u8]) -> u16
    ensures { result ≡ be16 v.now }
{
    u16::from_be_bytes([octet(v, 0), octet(v, 1)])
}

// The number in the first four octets.
pub fn be32_of(v: &[u8]) -> u64
    ensures { result ≡ be32 v.now }
{
    u64::from(u32::from_be_bytes([octet(v, 0), octet(v, 1), octet(v, 2), octet(v, 3)]))
}

// The len octets from a place on, or what there is of them.
pub fn part(s: &[u8], start: usize, len: usize) -> &[u8]
    ensures { result.now ≡ take len (drop start s.now) }
{
    if s.len() <= start {
        &s[..0]
    } else if s.len() - start <= len {
        &s[start..]
    } else {
        &s[start..start + len]
    }
}

// The octets of a key that has `N`, with zeros after them.
fn own_octets<const N: usize>(v: &[u8]) -> [u8; KEY_OCTETS]
    requires { (length v.now ≡ N) × (N ≤ 16) }
    ensures { result ≡ padded v.now }
{
    let mut o = [0u8; KEY_OCTETS];
    o[..N].copy_from_slice(v);
    o
}

// A TEK or a vector. Its width is 8 or 16 where the message is sound, and those two are copied at once.
pub fn key_octets(v: &[u8]) -> KeyOctets
    ensures { result ≡ key_octets_of v.now }
{
    let width = v.len();
    let octets = match width {
        WIDTH_DES => own_octets::<WIDTH_DES>(v),
        WIDTH_AES => own_octets::<WIDTH_AES>(v),
        _ => octets(v, 0, width),
    };
    KeyOctets { width, octets }
}
