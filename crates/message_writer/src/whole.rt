// The whole message, in the order that its digest asks: the attributes, the digest's with zeros, Length, and then the sum, which covers the head.
ghost use Rattle.std.specs.Prelude.{◌+◌, ◌≤◌, ◌≡◌, length};
ghost use Rattle.std.proofs.lemmas.List.Edits.{sets};
ghost use Rattle.key_traffic.specs.Octets.{overlay};
ghost use Rattle.message_rules.specs.Writing.{message_of, no_digest_of};
ghost use Rattle.message_parts.specs.Parts.{head_octets_of, Writable};
ghost use Rattle.message_digest.specs.Digest.{signed_of};
ghost use Rattle.message_writer.specs.Finish.{kept_length, finished};

use crate::message::{put_digest, put_front};
use message_digest::digest::store_digest;
use message_parts::put::{put_octets, two_octets};
use message_rules::codes::HEAD_OCTETS;
use message_rules::fields::Fields;

// Code, Identifier and Length.
fn put_message_head(out: &mut [u8], code: u8, identifier: u8, len: usize)
    ensures { out.new ≡ sets out.old 0 (head_octets_of code identifier len) }
{
    let [high, low] = two_octets(len);
    let head = [code, identifier, high, low];
    put_octets(out, 0, &head);
}

// What follows the attributes before the digest, which have `before` octets, with the digest under the message key. The octets of the whole message are
// handed back.
fn finish(code: u8, identifier: u8, key: &[u8], before: usize, out: &mut [u8]) -> usize
    requires { (before ≤ 338) × (4 + kept_length code before ≤ length out.old) }
    ensures { (result ≡ 4 + kept_length code before)
        × (out.new ≡ finished code identifier key.now before out.old) }
{
    let len = put_digest(out, before, code);
    put_message_head(out, code, identifier, len);
    store_digest(code, key, HEAD_OCTETS + len, out);
    HEAD_OCTETS + len
}

// The message of the fields at the front of a slice that has room for it, with the AUTH-Key `auth` and the digest under the message key.
pub fn put_message(f: Fields, auth: &[u8], key: &[u8], out: &mut [u8]) -> usize
    requires { Writable f (length auth.now) × (length (message_of f auth.now no_digest_of) ≤ length out.old) }
    ensures { (result ≡ length (signed_of f auth.now key.now))
        × (out.new ≡ overlay out.old (signed_of f auth.now key.now)) }
{
    let before = put_front(f, auth, out);
    finish(f.code, f.identifier, key, before, out)
}
