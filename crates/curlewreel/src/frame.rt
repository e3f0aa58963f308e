// The frame decision for C.
ghost use Rattle.std.specs.Prelude.{length};
ghost use Rattle.c_frame_decision.specs.Frame.{frame_of, Gives};

use c_frame_decision::frame::frame_decision;

// The key of `keys` that opens a frame numbered `number` at `clock`: its first `width` octets of TEK and of vector go to the front
// of `tek` and `vector`, and the answer is 0. `keys` has 64 octets: TEK and vector of the older, then of the newer, 16 for each.
// Refused with 1, 2 or 13, and then nothing is written.
#[unsafe(no_mangle)]
pub extern "C" fn curlewreel_frame(
    clock: u64,
    older_number: u8,
    older_deadline: u64,
    newer_number: u8,
    newer_deadline: u64,
    width: usize,
    keys: &[u8],
    number: u8,
    tek: &mut [u8],
    vector: &mut [u8],
) -> u8
    ensures { Gives (frame_of clock older_number older_deadline newer_number newer_deadline width keys.now number
        (length tek.old) (length vector.old)) tek.old vector.old result tek.new vector.new }
{
    frame_decision(
        clock,
        older_number,
        older_deadline,
        newer_number,
        newer_deadline,
        width,
        keys,
        number,
        tek,
        vector,
    )
}
