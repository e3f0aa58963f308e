// What the calls look for in the lent records.
ghost use Rattle.std.specs.Prelude.{◌≡◌};
ghost use Rattle.key_association.specs.declared.search.Probe.TheVariants.{OfSaid};
ghost use Rattle.headend_limits.specs.Search.{half_in_of, out_of_limits_of, one_of, records_fit_of, of_request_of, found_suits_of};

use headend_state::entries::{Known, is_listing_suite};
use headend_state::state::HeadEnd;
use key_association::listing::Listing;
use key_association::record::record_fits;
use key_association::search::{Found, Probe};
use message_rules::fields::Reading;
use questions::settings::half;

// H, by the head-end's settings.
pub fn half_in(h: HeadEnd) -> u64
    ensures { result ≡ half_in_of h }
{
    half(h.settings.tek)
}

// A record out of its limits at the head-end's clock.
pub fn out_of_limits(h: HeadEnd) -> Probe
    ensures { result ≡ out_of_limits_of h }
{
    Probe::OutOfLimits(half_in(h), h.clock)
}

// A record of one of a listing's SAIDs.
pub fn one_of(l: Listing) -> Probe
    ensures { result ≡ one_of l }
{
    Probe::OfOneOf(l)
}

// No record that is in use and lent is out of its limits: `bad` is the place of the first lent one that is, or `len`, the number lent.
pub fn records_fit(h: HeadEnd, bad: usize, len: usize) -> bool
    ensures { result ≡ records_fit_of h bad len }
{
    (h.used <= bad) | (len <= bad)
}

// The record of the SAID that a message carries.
pub fn of_request(r: Reading) -> Probe
    ensures { result ≡ of_request_of r }
{
    Probe::OfSaid(r.fields.said)
}

// The record of a SAID.
pub fn of_said(said: u16) -> Probe
    ensures { result ≡ OfSaid said }
{
    Probe::OfSaid(said)
}

// A part of question 1, with `s` what was found for a modem's SAID and `len` records lent: it is one of the records in use, within its
// limits, and has the suite that the entry names.
pub fn found_suits(h: HeadEnd, len: usize, s: Found, k: Known, said: u16) -> bool
    ensures { result ≡ found_suits_of h len s k said }
{
    (len < h.used)
        | ((s.at < h.used)
            & record_fits(s.held, half_in(h), h.clock)
            & is_listing_suite(k.entry.listing, said, s.held.suite))
}
