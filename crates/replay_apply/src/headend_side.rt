// The calls that reach the head-end alone, applied to both ends.
ghost use Rattle.std.specs.Prelude.{◌≡◌, length};
ghost use Rattle.questions.specs.Refusal.{answer_number_of};
ghost use Rattle.demand_plant.specs.World.{list, up, seal_down, open_up_of, seal_down_frame_of, open_up_frame_of};
ghost use Rattle.replay_apply.specs.Steps.{world_of};
ghost use Rattle.replay_apply.specs.Applied.{applied_of, quiet_of, AppliesSent, AppliesKey, AppliesKeySent, AppliesFrame, AppliesFrameSent};

use crate::ends::{Applied, Ends, quiet};
use crate::held::{
    list_held, open_frame_held, open_held, receive_held, seal_frame_held, seal_held,
};
use headend_state::state::Called;
use key_association::record::Assoc;
use key_traffic::numbers::TekNumber;
use modem_steps::state::Modem;
use questions::limits::RECORDS_MAX;
use questions::refusal::answer_number;
use replay_read::calls::Call;

// What a call of the head-end gives, with the modem as it was.
fn of_head(c: Called, records: [Assoc; RECORDS_MAX], modem: Modem) -> Applied
    ensures { result ≡ quiet_of (answer_number_of c.answer) c.count c.state records modem }
{
    quiet(answer_number(c.answer), c.count, c.state, records, modem)
}

// A listing.
pub fn apply_list(e: Ends, c: Call, octets: &[u8]) -> Applied
    ensures { result ≡ applied_of (world_of e) (list c.address c.word c.listing octets.now) }
{
    let r = list_held(e.head, e.records, c.address, c.word, c.listing, octets);
    of_head(r.called, r.records, e.modem)
}

// A message to the head-end.
pub fn apply_up(
    e: Ends,
    c: Call,
    octets: &[u8],
    auth: &[u8],
    read: &[u8],
    write: &[u8],
    out: &mut [u8],
) -> Applied
    ensures { AppliesSent (world_of e) (up c.address read.now write.now octets.now auth.now (length out.old))
        out.old result out.new }
{
    let r = receive_held(e.head, e.records, c.address, read, write, octets, auth, out);
    of_head(r, e.records, e.modem)
}

// A frame that the head-end sends.
pub fn apply_seal_down(e: Ends, c: Call, tek: &mut [u8], vector: &mut [u8]) -> Applied
    ensures { AppliesKey (world_of e) (seal_down c.address c.said (length tek.old) (length vector.old))
        tek.old vector.old result tek.new vector.new }
{
    let r = seal_held(e.head, e.records, c.address, c.said, tek, vector);
    Applied {
        number: answer_number(r.answer),
        key: r.number,
        width: r.width,
        frame: 0,
        count: 0,
        ends: e,
    }
}

// A frame that reaches the head-end.
pub fn apply_open_up(
    e: Ends,
    c: Call,
    write: &[u8],
    tek: &mut [u8],
    vector: &mut [u8],
    out: &mut [u8],
) -> Applied
    ensures { AppliesKeySent (world_of e) (open_up_of c.word c.address c.said c.number write.now (length tek.old) (length vector.old) (length out.old))
        tek.old vector.old out.old result tek.new vector.new out.new }
{
    let r = open_held(
        e.head, e.records, c.word, c.address, c.said, c.number, write, tek, vector, out,
    );
    Applied {
        number: answer_number(r.answer),
        key: TekNumber(0),
        width: r.width,
        frame: 0,
        count: r.count,
        ends: Ends { head: r.state, ..e },
    }
}

// A frame's octets that the head-end sends.
pub fn apply_seal_down_frame(e: Ends, c: Call, octets: &[u8], frame: &mut [u8]) -> Applied
    ensures { AppliesFrame (world_of e) (seal_down_frame_of c.address c.said octets.now (length frame.old))
        frame.old result frame.new }
{
    let r = seal_frame_held(e.head, e.records, c.address, c.said, octets, frame);
    Applied {
        number: answer_number(r.answer),
        key: r.number,
        width: 0,
        frame: r.width,
        count: 0,
        ends: e,
    }
}

// A frame's octets that reach the head-end.
pub fn apply_open_up_frame(
    e: Ends,
    c: Call,
    octets: &[u8],
    write: &[u8],
    frame: &mut [u8],
    out: &mut [u8],
) -> Applied
    ensures { AppliesFrameSent (world_of e) (open_up_frame_of c.word c.address c.said c.number octets.now write.now (length frame.old) (length out.old))
        frame.old out.old result frame.new out.new }
{
    let r = open_frame_held(
        e.head, e.records, c.word, c.address, c.said, c.number, octets, write, frame, out,
    );
    Applied {
        number: answer_number(r.answer),
        key: TekNumber(0),
        width: 0,
        frame: r.width,
        count: r.count,
        ends: Ends { head: r.state, ..e },
    }
}
