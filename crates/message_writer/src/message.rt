// The attributes of the nine messages (document 01, "Messages": "Needed"), put behind the head and counted as they go; Length comes from that count
// (document 02, M-102). None has more than 338 octets of them: an Authorization Reply with the longest AUTH-Key and four SA-Descriptors.
ghost use Rattle.std.specs.Prelude.{◌+◌, ◌≤◌, ◌≡◌, true, ◌∷◌, [], ◌++◌, length, take};
ghost use Rattle.message_rules.specs.Attributes.{attr};
ghost use Rattle.message_rules.specs.Ranges.{is_required_of};
ghost use Rattle.message_rules.specs.Writing.{no_digest_of};
ghost use Rattle.message_parts.specs.Put.{Wrote};
ghost use Rattle.message_parts.specs.Parts.{params_item, named_items, grant_items, front_items, digest_items, Writable};

use key_traffic::numbers::AkNumber;
use message_parts::put::{put_attr, put_descriptors, put_four, put_one, put_params, put_two};
use message_rules::codes::{
    CODE_AUTHORIZATION_INVALID, CODE_AUTHORIZATION_REJECT, CODE_AUTHORIZATION_REPLY,
    CODE_AUTHORIZATION_REQUEST, CODE_KEY_REJECT, CODE_KEY_REPLY, CODE_KEY_REQUEST,
    CODE_TEK_INVALID, DIGEST_OCTETS, TYPE_AUTH_KEY, TYPE_DIGEST, TYPE_ERROR, TYPE_KEY_LIFETIME,
    TYPE_KEY_NUMBER, TYPE_SAID,
};
use message_rules::fields::{Descriptor, Fields, Params};
use message_rules::required::is_required;
use questions::limits::SAIDS_MAX;

// The length so far before the first attribute.
const NO_OCTETS: usize = 0;

fn put_named(out: &mut [u8], len: usize, ak: AkNumber, said: u16) -> usize
    requires { len + 20 ≤ 4096 }
    ensures wrote { Wrote out.old len (named_items ak said) result out.new }
    ensures value { result ≡ len + 9 }
{
    let a = put_one(out, len, TYPE_KEY_NUMBER, ak.0);
    put_two(out, a, TYPE_SAID, said)
}

// The two TEK-Parameters, the older first.
fn put_pair(out: &mut [u8], len: usize, older: Params, newer: Params) -> usize
    requires { len + 300 ≤ 4096 }
    ensures wrote { Wrote out.old len (params_item older ∷ params_item newer ∷ []) result out.new }
    ensures upper_bound { result ≤ len + 104 }
{
    let a = put_params(out, len, older);
    put_params(out, a, newer)
}

// What follows the AUTH-Key in an Authorization Reply.
fn put_grant(
    out: &mut [u8],
    len: usize,
    life: u64,
    ak: AkNumber,
    n: usize,
    ds: [Descriptor; SAIDS_MAX],
) -> usize
    requires { len + 300 ≤ 4096 }
    ensures wrote { Wrote out.old len (grant_items life ak (take n ds)) result out.new }
    ensures upper_bound { result ≤ len + 79 }
{
    let a = put_four(out, len, TYPE_KEY_LIFETIME, life);
    let b = put_one(out, a, TYPE_KEY_NUMBER, ak.0);
    put_descriptors(out, b, n, ds)
}

// Authorization Reply.
fn put_reply(out: &mut [u8], f: Fields, auth: &[u8]) -> usize
    requires { length auth.now ≤ 256 }
    ensures wrote { Wrote out.old 0 (attr 7 auth.now ∷ grant_items f.life f.ak (take f.count f.descriptors)) result out.new }
    ensures upper_bound { result ≤ 338 }
{
    let a = put_attr(out, NO_OCTETS, TYPE_AUTH_KEY, auth);
    put_grant(out, a, f.life, f.ak, f.count, f.descriptors)
}

// Key Reply, before its digest.
fn put_key_reply(out: &mut [u8], f: Fields) -> usize
    ensures wrote { Wrote out.old 0 (named_items f.ak f.said ++ (params_item f.older ∷ params_item f.newer ∷ [])) result out.new }
    ensures upper_bound { result ≤ 338 }
{
    let a = put_named(out, NO_OCTETS, f.ak, f.said);
    put_pair(out, a, f.older, f.newer)
}

// Key Reject and TEK Invalid, before their digest.
fn put_key_error(out: &mut [u8], f: Fields) -> usize
    ensures wrote { Wrote out.old 0 (named_items f.ak f.said ++ (attr 16 (f.error ∷ []) ∷ [])) result out.new }
    ensures upper_bound { result ≤ 338 }
{
    let a = put_named(out, NO_OCTETS, f.ak, f.said);
    put_one(out, a, TYPE_ERROR, f.error)
}

// The attributes before the digest. `auth` is the AUTH-Key's octets.
pub fn put_front(f: Fields, auth: &[u8], out: &mut [u8]) -> usize
    requires { Writable f (length auth.now) }
    ensures wrote { Wrote out.old 0 (front_items f auth.now) result out.new }
    ensures upper_bound { result ≤ 338 }
{
    match f.code {
        CODE_AUTHORIZATION_REQUEST => put_two(out, NO_OCTETS, TYPE_SAID, f.said),
        CODE_AUTHORIZATION_REPLY => put_reply(out, f, auth),
        CODE_AUTHORIZATION_REJECT | CODE_AUTHORIZATION_INVALID => {
            put_one(out, NO_OCTETS, TYPE_ERROR, f.error)
        }
        CODE_KEY_REQUEST => put_named(out, NO_OCTETS, f.ak, f.said),
        CODE_KEY_REPLY => put_key_reply(out, f),
        CODE_KEY_REJECT | CODE_TEK_INVALID => put_key_error(out, f),
        // Authentication Information has none.
        _ => NO_OCTETS,
    }
}

// The digest attribute where the code carries one, with zeros until the sum is worked out.
pub fn put_digest(out: &mut [u8], len: usize, code: u8) -> usize
    requires { len ≤ 338 }
    ensures wrote { Wrote out.old len (digest_items code no_digest_of) result out.new }
    ensures upper_bound { (result ≤ 361) × (is_required_of code 11 ≡ true → 23 ≤ 4 + result) }
{
    if is_required(code, TYPE_DIGEST) {
        put_attr(out, len, TYPE_DIGEST, &[0u8; DIGEST_OCTETS])
    } else {
        len
    }
}
