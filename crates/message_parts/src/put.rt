// Stores of octets and attributes into a lent slice; what has no room is dropped. An attribute goes behind the head and the `len` octets of the
// attributes before it, and the length so far is handed back with its own octets counted in (document 02, M-102).
ghost use Rattle.std.specs.Prelude.{◌+◌, ◌≤◌, min, ◌≡◌, ◌∷◌, [], length, take};
ghost use Rattle.std.proofs.lemmas.List.Edits.{sets};
ghost use Rattle.message_rules.specs.Attributes.{attr, two, four};
ghost use Rattle.message_rules.specs.Writing.{own_octets_of, params_items_of, descriptors_items};
ghost use Rattle.key_traffic.specs.Put.{Put};
ghost use Rattle.message_parts.specs.Put.{Wrote};
ghost use Rattle.message_parts.specs.Parts.{params_item, descriptor_item};

use crate::lengths::{DESCRIPTOR_INSIDE_OCTETS, own_len, params_len};
use message_rules::codes::{
    ATTRIBUTE_HEAD_OCTETS, HEAD_OCTETS, TYPE_KEY_LIFETIME, TYPE_KEY_NUMBER, TYPE_SA_DESCRIPTOR,
    TYPE_SA_TYPE, TYPE_SAID, TYPE_SUITE, TYPE_TEK, TYPE_TEK_PARAMETERS, TYPE_VECTOR,
};
use message_rules::fields::{Descriptor, KeyOctets, Params};
use questions::limits::SAIDS_MAX;

// How many numbers two octets hold, and four.
const TWO_OCTETS: usize = 1 << 16;

const FOUR_OCTETS: u64 = 1 << 32;

// All octets of `v` from a place on; the place after them is handed back.
pub fn put_octets(out: &mut [u8], at: usize, v: &[u8]) -> usize
    requires { at ≤ 4096 }
    ensures { Put out.old at v.now result out.new }
{
    for (i, x) in v.iter().enumerate() {
        let place = at + i;
        if place < out.len() {
            out[place] = *x;
        }
    }
    at + v.len()
}

// The two lower octets of a number, the higher first.
pub fn two_octets(n: usize) -> [u8; 2]
    ensures { result ≡ two n }
{
    ((n % TWO_OCTETS) as u16).to_be_bytes()
}

// The four lower octets of a number, the highest first.
pub fn four_octets(n: u64) -> [u8; 4]
    ensures { result ≡ four n }
{
    ((n % FOUR_OCTETS) as u32).to_be_bytes()
}

// The type and the length of an attribute, the higher octet first.
pub fn put_head(out: &mut [u8], len: usize, kind: u8, n: usize) -> usize
    requires { len + 4 ≤ 4096 }
    ensures { (out.new ≡ sets out.old (4 + len) (kind ∷ two n)) × (result ≡ len + 3) }
{
    let [high, low] = two_octets(n);
    put_octets(out, HEAD_OCTETS + len, &[kind, high, low]);
    len + ATTRIBUTE_HEAD_OCTETS
}

// An attribute whose value is `v`.
pub fn put_attr(out: &mut [u8], len: usize, kind: u8, v: &[u8]) -> usize
    requires { len + 7 ≤ 4096 }
    ensures wrote { Wrote out.old len (attr kind v.now ∷ []) result out.new }
    ensures value { result ≡ len + 3 + length v.now }
{
    let value = put_head(out, len, kind, v.len());
    put_octets(out, HEAD_OCTETS + value, v);
    value + v.len()
}

// An attribute of one octet.
pub fn put_one(out: &mut [u8], len: usize, kind: u8, x: u8) -> usize
    requires { len + 7 ≤ 4096 }
    ensures wrote { Wrote out.old len (attr kind (x ∷ []) ∷ []) result out.new }
    ensures value { result ≡ len + 4 }
{
    put_attr(out, len, kind, &[x])
}

// The same of two octets, the higher first.
pub fn put_two(out: &mut [u8], len: usize, kind: u8, x: u16) -> usize
    requires { len + 7 ≤ 4096 }
    ensures wrote { Wrote out.old len (attr kind (two x) ∷ []) result out.new }
    ensures value { result ≡ len + 5 }
{
    put_attr(out, len, kind, &two_octets(usize::from(x)))
}

// The same of four octets, the highest first.
pub fn put_four(out: &mut [u8], len: usize, kind: u8, x: u64) -> usize
    requires { len + 7 ≤ 4096 }
    ensures wrote { Wrote out.old len (attr kind (four x) ∷ []) result out.new }
    ensures value { result ≡ len + 7 }
{
    put_attr(out, len, kind, &four_octets(x))
}

// A TEK or a vector.
pub fn put_key(out: &mut [u8], len: usize, kind: u8, k: KeyOctets) -> usize
    requires { len + 7 ≤ 4096 }
    ensures wrote { Wrote out.old len (attr kind (own_octets_of k) ∷ []) result out.new }
    ensures value { result ≡ len + 3 + min k.width 16 }
{
    let n = own_len(k.width);
    put_attr(out, len, kind, &k.octets[..n])
}

// The inside of TEK-Parameters.
fn put_inside(out: &mut [u8], len: usize, p: Params) -> usize
    requires { len + 100 ≤ 4096 }
    ensures wrote { Wrote out.old len (params_items_of p) result out.new }
    ensures upper_bound { result ≤ len + 49 }
{
    let a = put_key(out, len, TYPE_TEK, p.tek);
    let b = put_four(out, a, TYPE_KEY_LIFETIME, p.life);
    let c = put_one(out, b, TYPE_KEY_NUMBER, p.number.0);
    put_key(out, c, TYPE_VECTOR, p.vector)
}

// TEK-Parameters. The length so far goes on through its inside.
pub fn put_params(out: &mut [u8], len: usize, p: Params) -> usize
    requires { len + 103 ≤ 4096 }
    ensures wrote { Wrote out.old len (params_item p ∷ []) result out.new }
    ensures upper_bound { result ≤ len + 52 }
{
    let inside = put_head(out, len, TYPE_TEK_PARAMETERS, params_len(p));
    put_inside(out, inside, p)
}

// An SA-Descriptor.
fn put_descriptor(out: &mut [u8], len: usize, d: Descriptor) -> usize
    requires { len + 100 ≤ 4096 }
    ensures wrote { Wrote out.old len (descriptor_item d ∷ []) result out.new }
    ensures upper_bound { result ≡ len + 17 }
{
    let a = put_head(out, len, TYPE_SA_DESCRIPTOR, DESCRIPTOR_INSIDE_OCTETS);
    let b = put_two(out, a, TYPE_SAID, d.said);
    let c = put_one(out, b, TYPE_SA_TYPE, d.kind);
    put_two(out, c, TYPE_SUITE, d.suite)
}

// The first `n` of four SA-Descriptors.
pub fn put_descriptors(out: &mut [u8], len: usize, n: usize, ds: [Descriptor; SAIDS_MAX]) -> usize
    requires { len + 200 ≤ 4096 }
    ensures wrote { Wrote out.old len (descriptors_items (take n ds)) result out.new }
    ensures upper_bound { result ≤ len + 68 }
{
    let mut end = len;
    for (i, d) in ds.iter().enumerate() {
        if i < n {
            end = put_descriptor(out, end, *d);
        }
    }
    end
}
