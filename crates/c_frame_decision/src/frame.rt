// The frame decision: which of a held pair's keys opens a frame, with its TEK and vector.
ghost use Rattle.std.specs.Prelude.{◌≡◌, length};
ghost use Rattle.c_frame_decision.specs.Frame.{frame_fits_of, slices_fit_of, frame_of, Gives};

use key_traffic::frame::{decide, opening_number};
use key_traffic::numbers::{TekNumber, tek_in_range};
use key_traffic::octets::KEY_OCTETS;
use key_traffic::sealing::put_opened;
use key_traffic::suites::width_known;
use key_traffic::traffic::{TrafficKey, key_from, pair_fits};
use questions::limits::CLOCK_MAX;
use questions::refusal::{DONE, OUT_OF_LIMITS, WRONG_LENGTH};

// Octets of `keys`, and where the older key and the newer stand in them.
const KEYS_OCTETS: usize = 64;

const OLDER_AT: usize = 0;

const NEWER_AT: usize = 32;

// Question 1: the clock, the width, the frame's number and the pair are within their limits.
fn frame_fits(
    clock: u64,
    older: TrafficKey,
    newer: TrafficKey,
    width: usize,
    number: TekNumber,
) -> bool
    ensures { result ≡ frame_fits_of clock older newer width number }
{
    (clock <= CLOCK_MAX)
        & width_known(width)
        & tek_in_range(number)
        & pair_fits(older, newer, width, clock)
}

// Question 2: all of the pair's octets are lent, and room for a key's.
fn slices_fit(keys: usize, tek: usize, vector: usize) -> bool
    ensures { result ≡ slices_fit_of keys tek vector }
{
    (keys == KEYS_OCTETS) & (KEY_OCTETS <= tek) & (KEY_OCTETS <= vector)
}

// The key of `keys` that opens a frame numbered `number` at `clock`: its first `width` octets of TEK and of vector go to the front
// of `tek` and `vector`, and the answer is 0. `keys` has 64 octets: TEK and vector of the older, then of the newer, 16 for each.
// Refused with 1, 2 or 13, and then nothing is written. It answers by number, since C calls it (`curlewreel_frame_decision`).
pub fn frame_decision(
    clock: u64,
    older_number: u8,
    older_deadline: u64,
    newer_number: u8,
    newer_deadline: u64,
    width: usize,
    keys: &[u8],
    number: u8,
    tek: &mut [u8],
    vector: &mut [u8],
) -> u8
    ensures { Gives (frame_of clock older_number older_deadline newer_number newer_deadline width keys.now number
        (length tek.old) (length vector.old)) tek.old vector.old result tek.new vector.new }
{
    let older = key_from(
        keys,
        OLDER_AT,
        KEY_OCTETS,
        TekNumber(older_number),
        older_deadline,
    );
    let newer = key_from(
        keys,
        NEWER_AT,
        KEY_OCTETS,
        TekNumber(newer_number),
        newer_deadline,
    );
    if !frame_fits(clock, older, newer, width, TekNumber(number)) {
        return OUT_OF_LIMITS;
    }
    if !slices_fit(keys.len(), tek.len(), vector.len()) {
        return WRONG_LENGTH;
    }
    let by = decide(older, newer, TekNumber(number), clock);
    let no = opening_number(by);
    if no != DONE {
        return no;
    }
    put_opened(by, width, older, newer, tek, vector);
    DONE
}
