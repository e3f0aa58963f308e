// The head-end's calls but those on frames, in document 01's order. A refusal changes and writes nothing. The functions over records
// are straight lines: every decision is made by a function of `headend_steps` on values.
ghost use Rattle.std.specs.Prelude.{◌≡◌};
ghost use Rattle.headend_calls.specs.Calls.{new_value, Lists, Clocks, Receives};

use headend_limits::search::{half_in, of_request, one_of, out_of_limits};
use headend_state::state::{Called, HeadEnd, answered, fresh};
use headend_steps::clock::clock_called;
use headend_steps::listing::list_called;
use headend_steps::receive::{read_request, receive_called};
use key_association::listing::Listing;
use key_association::record::Assoc;
use key_records::{first, lookup, roll, store};
use questions::refusal::Refusal;
use questions::settings::{Settings, no_settings, settings_fit};

// A fresh head-end at clock 0; where it is refused, one that is all zero.
#[tactic(auto, unfolding(crate::specs::Calls::new_value))]
pub fn new(settings: Settings) -> Called
    ensures { result ≡ new_value settings }
{
    if settings_fit(settings) {
        answered(fresh(settings), Ok(()))
    } else {
        answered(fresh(no_settings()), Err(Refusal::OutOfLimits))
    }
}

// Lists a modem: its entry goes into the state, and its records behind those in use.
pub fn list(
    h: HeadEnd,
    records: &mut [Assoc],
    address: u64,
    allowed: u8,
    l: Listing,
    material: &[u8],
) -> Called
    ensures { Lists h records.old address allowed l material.now result records.new }
{
    let bad = first(records, out_of_limits(h));
    let clash = first(records, one_of(l));
    let called = list_called(
        h,
        address,
        allowed,
        l,
        bad,
        clash,
        records.len(),
        material.len(),
    );
    if called.answer.is_ok() {
        store(records, h.used, l.count, half_in(h), h.clock, l, material);
    }
    called
}

// The clock goes to `t`: the records in use are rolled.
pub fn clock(h: HeadEnd, records: &mut [Assoc], t: u64, material: &[u8]) -> Called
    ensures { Clocks h records.old t material.now result records.new }
{
    let bad = first(records, out_of_limits(h));
    let called = clock_called(h, t, bad, records.len(), material.len());
    if called.answer.is_ok() {
        roll(records, h.used, half_in(h), t, material);
    }
    called
}

// A message from the modem of that address; the answer is written at the front of `out`. Its digest is asked under `read_key`, the answer's is that of
// `write_key`, and `auth` is the AUTH-Key of an Authorization Reply.
pub fn receive(
    h: HeadEnd,
    records: &[Assoc],
    address: u64,
    read_key: &[u8],
    write_key: &[u8],
    message: &[u8],
    auth: &[u8],
    out: &mut [u8],
) -> Called
    ensures { Receives h records.now address read_key.now write_key.now message.now auth.now out.old result out.new }
{
    let bad = first(records, out_of_limits(h));
    let r = read_request(message);
    let s = lookup(records, of_request(r));
    receive_called(
        h,
        bad,
        records.len(),
        s,
        address,
        message,
        read_key,
        write_key,
        r,
        auth,
        out,
    )
}
