// Question 1 of fields to be written: what would not be read back as it is, or what the receiving end would refuse, is refused.
ghost use Rattle.std.specs.Prelude.{◌<◌, ◌≡◌, ◌&&◌, true, take, leb, eqb};
ghost use Rattle.key_traffic.specs.Addresses.{said_fits_of};
ghost use Rattle.message_rules.specs.Ranges.{is_required_of};
ghost use Rattle.message_rules.specs.Messages.{different};
ghost use Rattle.message_rules.specs.Limits.{carried_or_of, key_octets_fit_of, key_octets_zero_of, params_fit_of, params_zero_of, pair_fit_of, descriptor_fit_of, descriptor_zero_of, place_fit_of, saids_of, descriptors_fit_of, descriptors_zero_of, head_fits_of, fields_fit_of, auth_key_fits_of};

use key_traffic::numbers::{AkNumber, ak_in_range, tek_after, tek_in_range};
use key_traffic::octets::zero_past;
use key_traffic::suites::{suite_known, width_known};
use message_rules::codes::{
    AUTH_KEY_OCTETS_MAX, AUTH_KEY_OCTETS_MIN, CODE_AUTHENTICATION_INFORMATION,
    CODE_AUTHORIZATION_REQUEST, CODE_TEK_INVALID, LIFE_MIN, SA_TYPE_MAX, TYPE_AUTH_KEY, TYPE_ERROR,
    TYPE_KEY_LIFETIME, TYPE_KEY_NUMBER, TYPE_SA_DESCRIPTOR, TYPE_SAID, TYPE_TEK_PARAMETERS,
    UNSOLICITED,
};
use message_rules::fields::{Descriptor, Fields, KeyOctets, Params};
use message_rules::required::is_required;
use questions::apart::all_apart;
use questions::limits::{AK_REPLY_LIFE_MAX, SAID_MAX, SAIDS_MAX, SAIDS_MIN, TEK_LIFE_MAX};

// A field of a type that the code carries is in its range; one that it does not carry is zero.
fn carried_or(code: u8, kind: u8, fits: bool, zero: bool) -> bool
    ensures { result ≡ carried_or_of (is_required_of code kind) fits zero }
{
    if is_required(code, kind) { fits } else { zero }
}

// A TEK or a vector: a known width, and zeros past it.
pub fn key_octets_fit(k: KeyOctets) -> bool
    ensures { result ≡ key_octets_fit_of k }
{
    width_known(k.width) & zero_past(k.octets, k.width)
}

// No TEK or vector: all zero.
pub fn key_octets_zero(k: KeyOctets) -> bool
    ensures { result ≡ key_octets_zero_of k }
{
    (k.width == 0) & zero_past(k.octets, 0)
}

// TEK-Parameters: number, life and both keys in their limits.
pub fn params_fit(p: Params) -> bool
    ensures { result ≡ params_fit_of p }
{
    tek_in_range(p.number)
        & (LIFE_MIN <= p.life)
        & (p.life <= TEK_LIFE_MAX)
        & key_octets_fit(p.tek)
        & key_octets_fit(p.vector)
}

// No TEK-Parameters: all zero.
pub fn params_zero(p: Params) -> bool
    ensures { result ≡ params_zero_of p }
{
    (p.number.0 == 0) & (p.life == 0) & key_octets_zero(p.tek) & key_octets_zero(p.vector)
}

// Two TEK-Parameters: the newer has the number after the older's, and the longer life.
pub fn pair_fit(older: Params, newer: Params) -> bool
    ensures { result ≡ pair_fit_of older newer }
{
    params_fit(older)
        & params_fit(newer)
        & (newer.number == tek_after(older.number, 1))
        & (older.life < newer.life)
}

// An SA-Descriptor: SAID, SA type and suite in their limits.
pub fn descriptor_fit(d: Descriptor) -> bool
    ensures { result ≡ descriptor_fit_of d }
{
    (d.said <= SAID_MAX) & (d.kind <= SA_TYPE_MAX) & suite_known(d.suite)
}

// No SA-Descriptor: all zero.
pub fn descriptor_zero(d: Descriptor) -> bool
    ensures { result ≡ descriptor_zero_of d }
{
    (d.said == 0) & (d.kind == 0) & (d.suite == 0)
}

// The descriptor at a place, where the first `n` are there. The four places are asked by name: with a loop over them an Authorization Reply takes 18%
// longer to write.
fn place_fit(n: usize, i: usize, ds: [Descriptor; SAIDS_MAX]) -> bool
    requires { i < 4 }
    ensures { result ≡ place_fit_of n i ds }
{
    let d = ds[i];
    if i < n {
        descriptor_fit(d)
    } else {
        descriptor_zero(d)
    }
}

// Whether the SAIDs of the first `n` descriptors are different.
pub fn saids_differ(n: usize, ds: [Descriptor; SAIDS_MAX]) -> bool
    ensures { result ≡ different (saids_of (take n ds)) }
{
    all_apart(n, ds[0].said, ds[1].said, ds[2].said, ds[3].said)
}

// 1 to 4 SA-Descriptors in their limits, with different SAIDs, and zeros after them.
pub fn descriptors_fit(n: usize, ds: [Descriptor; SAIDS_MAX]) -> bool
    ensures { result ≡ descriptors_fit_of n ds }
{
    (SAIDS_MIN <= n)
        & (n <= SAIDS_MAX)
        & place_fit(n, 0, ds)
        & place_fit(n, 1, ds)
        & place_fit(n, 2, ds)
        & place_fit(n, 3, ds)
        & saids_differ(n, ds)
}

// No SA-Descriptors: all zero.
pub fn descriptors_zero(n: usize, ds: [Descriptor; SAIDS_MAX]) -> bool
    ensures { result ≡ descriptors_zero_of n ds }
{
    (n == 0) & place_fit(0, 0, ds) & place_fit(0, 1, ds) & place_fit(0, 2, ds) & place_fit(0, 3, ds)
}

// One of the nine codes; TEK Invalid and Authentication Information have Identifier 0.
pub fn head_fits(c: u8, identifier: u8) -> bool
    ensures { result ≡ head_fits_of c identifier }
{
    (CODE_AUTHORIZATION_REQUEST <= c)
        & (c <= CODE_AUTHENTICATION_INFORMATION)
        & (!((c == CODE_TEK_INVALID) | (c == CODE_AUTHENTICATION_INFORMATION))
            | (identifier == UNSOLICITED))
}

// Question 1 of all fields.
pub fn fields_fit(f: Fields) -> bool
    ensures { result ≡ fields_fit_of f }
{
    head_fits(f.code, f.identifier)
        & carried_or(f.code, TYPE_KEY_NUMBER, ak_in_range(f.ak), f.ak.0 == 0)
        & carried_or(f.code, TYPE_SAID, f.said <= SAID_MAX, f.said == 0)
        & carried_or(
            f.code,
            TYPE_KEY_LIFETIME,
            (LIFE_MIN <= f.life) & (f.life <= AK_REPLY_LIFE_MAX),
            f.life == 0,
        )
        & carried_or(f.code, TYPE_ERROR, true, f.error == 0)
        & carried_or(
            f.code,
            TYPE_SA_DESCRIPTOR,
            descriptors_fit(f.count, f.descriptors),
            descriptors_zero(f.count, f.descriptors),
        )
        & carried_or(
            f.code,
            TYPE_TEK_PARAMETERS,
            pair_fit(f.older, f.newer),
            params_zero(f.older) & params_zero(f.newer),
        )
}

// Question 2 of the AUTH-Key: 1 to 256 octets, where the code carries one.
pub fn auth_key_fits(f: Fields, len: usize) -> bool
    ensures { result ≡ auth_key_fits_of f len }
{
    !is_required(f.code, TYPE_AUTH_KEY)
        | ((AUTH_KEY_OCTETS_MIN <= len) & (len <= AUTH_KEY_OCTETS_MAX))
}
