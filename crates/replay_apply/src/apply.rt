// One call applied to both ends and the records.
ghost use Rattle.std.specs.Prelude.{◌≡◌, length};
ghost use Rattle.replay_apply.specs.Steps.{world_of, step_for};
ghost use Rattle.replay_apply.specs.Applied.{Applies};

use crate::clock::apply_clock;
use crate::ends::{Applied, Ends};
use crate::headend_side::{
    apply_list, apply_open_up, apply_open_up_frame, apply_seal_down, apply_seal_down_frame,
    apply_up,
};
use crate::modem_side::{
    apply_down, apply_established, apply_open_down, apply_open_down_frame, apply_reauth,
    apply_seal_up, apply_seal_up_frame,
};
use replay_read::calls::{Call, Kind};

// The ends after the call, document 01's number, and what it gives: the octets of a key at the front of `tek` and `vector`, messages at the
// front of `out`, those of a frame at the front of `frame`. `octets` is the material of a listing or a clock call, a message, or a frame; `auth` the
// AUTH-Key of a message to the head-end; `read` and `write` are the message keys of what is read and of what is written.
pub fn apply(
    e: Ends,
    c: Call,
    octets: &[u8],
    auth: &[u8],
    read: &[u8],
    write: &[u8],
    tek: &mut [u8],
    vector: &mut [u8],
    out: &mut [u8],
    frame: &mut [u8],
) -> Applied
    ensures { Applies (world_of e) (step_for c octets.now auth.now read.now write.now (length tek.old) (length vector.old) (length out.old) (length frame.old))
        tek.old vector.old out.old frame.old result tek.new vector.new out.new frame.new }
{
    let kind = c.kind;
    match kind {
        Kind::List => apply_list(e, c, octets),
        Kind::Clock => apply_clock(e, c, octets, write, out),
        Kind::Established => apply_established(e, out),
        Kind::Reauth => apply_reauth(e, out),
        Kind::Up => apply_up(e, c, octets, auth, read, write, out),
        Kind::Down => apply_down(e, octets, read, write, out),
        Kind::SealDown => apply_seal_down(e, c, tek, vector),
        Kind::SealUp => apply_seal_up(e, c, tek, vector),
        Kind::OpenUp => apply_open_up(e, c, write, tek, vector, out),
        Kind::OpenDown => apply_open_down(e, c, write, tek, vector, out),
        Kind::SealDownFrame => apply_seal_down_frame(e, c, octets, frame),
        Kind::SealUpFrame => apply_seal_up_frame(e, c, octets, frame),
        Kind::OpenUpFrame => apply_open_up_frame(e, c, octets, write, frame, out),
        Kind::OpenDownFrame => apply_open_down_frame(e, c, octets, write, frame, out),
    }
}
