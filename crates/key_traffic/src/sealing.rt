// What sealing hands back at either end, the octets of a key and of a frame decision put into two lent slices, and the count of frames.
ghost use Rattle.std.specs.Prelude.{◌≡◌, ◌≤◌, length};
ghost use Rattle.key_traffic.specs.Octets.{overlay};
ghost use Rattle.key_traffic.specs.Sealing.{key_out, opened_by_of, one_more_of};

use crate::frame::Opening;
use crate::numbers::TekNumber;
use crate::octets::put;
use crate::traffic::TrafficKey;
use questions::refusal::Answer;

// What sealing hands back: the answer, the key's number, and how many octets of TEK and of vector, or of the frame, were written; 0 where it is
// refused.
#[derive(Clone, Copy)]
pub struct SealedCall {
    pub answer: Answer,
    pub number: TekNumber,
    pub width: usize,
}

// Frames are counted up to 2^64 - 1.
pub const FRAMES_MAX: u64 = 18446744073709551615;

// One more frame, where there is room for it.
pub fn one_more(n: u64) -> u64
    ensures { result ≡ one_more_of n }
{
    n.saturating_add(1)
}

// The first `w` octets of a key's TEK and vector go to the front of the two slices; how many is handed back.
pub fn put_key(k: TrafficKey, w: usize, tek: &mut [u8], vector: &mut [u8]) -> usize
    requires { (w ≤ 16) × (16 ≤ length tek.old) × (16 ≤ length vector.old) }
    ensures { (result ≡ length (key_out w k).tek)
        × (tek.new ≡ overlay tek.old (key_out w k).tek)
        × (vector.new ≡ overlay vector.old (key_out w k).vector) }
{
    put(k.tek, w, tek);
    put(k.vector, w, vector);
    w
}

// The same of whichever held key opens the frame; 0 where there is none.
pub fn put_opened(
    o: Opening,
    w: usize,
    older: TrafficKey,
    newer: TrafficKey,
    tek: &mut [u8],
    vector: &mut [u8],
) -> usize
    requires { (w ≤ 16) × (16 ≤ length tek.old) × (16 ≤ length vector.old) }
    ensures { (result ≡ length (opened_by_of o w older newer).tek)
        × (tek.new ≡ overlay tek.old (opened_by_of o w older newer).tek)
        × (vector.new ≡ overlay vector.old (opened_by_of o w older newer).vector) }
{
    match o {
        Some(by) => put_key(by.of(older, newer), w, tek, vector),
        None => 0,
    }
}
