// The modem's calls, applied to both ends.
ghost use Rattle.std.specs.Prelude.{◌≡◌, length};
ghost use Rattle.key_traffic.specs.Octets.{overlay};
ghost use Rattle.questions.specs.Refusal.{answer_number_of, is_done_of};
ghost use Rattle.modem_calls.specs.Calls.{clock_of};
ghost use Rattle.demand_plant.specs.World as World;
ghost use Rattle.replay_apply.specs.Steps.{world_of};
ghost use Rattle.replay_apply.specs.Applied.{quiet_of, clocked_of, AppliesSent, AppliesKey, AppliesKeySent, AppliesFrame, AppliesFrameSent};

use crate::ends::{Applied, Ends, quiet, refused};
use headend_state::state::HeadEnd;
use key_association::record::Assoc;
use key_traffic::numbers::TekNumber;
use modem_calls::calls::{clock, established, reauth, receive};
use modem_frames::frames::{open, seal};
use modem_frames::octets::{open_frame, seal_frame};
use modem_steps::state::Called;
use questions::limits::RECORDS_MAX;
use questions::refusal::answer_number;
use replay_read::calls::Call;

// What a call of the modem gives, with the head-end and its records.
fn of_modem(c: Called, head: HeadEnd, records: [Assoc; RECORDS_MAX]) -> Applied
    ensures { result ≡ quiet_of (answer_number_of c.answer) c.count head records c.modem }
{
    quiet(answer_number(c.answer), c.count, head, records, c.modem)
}

// The modem's part of the clock, with the head-end and the records after theirs.
pub fn clock_modem(
    e: Ends,
    head: HeadEnd,
    records: [Assoc; RECORDS_MAX],
    t: u64,
    write: &[u8],
    out: &mut [u8],
) -> Applied
    ensures { (result ≡ clocked_of (is_done_of (clock_of e.modem t write.now (length out.old)).called.answer) (clock_of e.modem t write.now (length out.old)).called e head records)
        × (out.new ≡ overlay out.old (clock_of e.modem t write.now (length out.old)).written) }
{
    let c = clock(e.modem, t, write, out);
    match c.answer {
        Ok(()) => of_modem(c, head, records),
        Err(no) => refused(u8::from(no), e),
    }
}

// Event established of the modem's authorization machine.
pub fn apply_established(e: Ends, out: &mut [u8]) -> Applied
    ensures { AppliesSent (world_of e) (World.established (length out.old))
        out.old result out.new }
{
    let c = established(e.modem, out);
    of_modem(c, e.head, e.records)
}

// Event reauth of it.
pub fn apply_reauth(e: Ends, out: &mut [u8]) -> Applied
    ensures { AppliesSent (world_of e) (World.reauth (length out.old))
        out.old result out.new }
{
    let c = reauth(e.modem, out);
    of_modem(c, e.head, e.records)
}

// A message to the modem.
pub fn apply_down(e: Ends, octets: &[u8], read: &[u8], write: &[u8], out: &mut [u8]) -> Applied
    ensures { AppliesSent (world_of e) (World.down read.now write.now octets.now (length out.old))
        out.old result out.new }
{
    let r = receive(e.modem, octets, read, write, out);
    of_modem(r, e.head, e.records)
}

// A frame that the modem sends.
pub fn apply_seal_up(e: Ends, c: Call, tek: &mut [u8], vector: &mut [u8]) -> Applied
    ensures { AppliesKey (world_of e) (World.seal_up c.said (length tek.old) (length vector.old))
        tek.old vector.old result tek.new vector.new }
{
    let r = seal(e.modem, c.said, tek, vector);
    Applied {
        number: answer_number(r.answer),
        key: r.number,
        width: r.width,
        frame: 0,
        count: 0,
        ends: e,
    }
}

// A frame that reaches the modem.
pub fn apply_open_down(
    e: Ends,
    c: Call,
    write: &[u8],
    tek: &mut [u8],
    vector: &mut [u8],
    out: &mut [u8],
) -> Applied
    ensures { AppliesKeySent (world_of e) (World.open_down c.word c.address c.said c.number write.now (length tek.old) (length vector.old) (length out.old))
        tek.old vector.old out.old result tek.new vector.new out.new }
{
    let r = open(
        e.modem, c.word, c.address, c.said, c.number, write, tek, vector, out,
    );
    Applied {
        number: answer_number(r.answer),
        key: TekNumber(0),
        width: r.width,
        frame: 0,
        count: r.count,
        ends: Ends {
            modem: r.modem,
            ..e
        },
    }
}

// A frame's octets that the modem sends.
pub fn apply_seal_up_frame(e: Ends, c: Call, octets: &[u8], frame: &mut [u8]) -> Applied
    ensures { AppliesFrame (world_of e) (World.seal_up_frame_of c.said octets.now (length frame.old))
        frame.old result frame.new }
{
    let r = seal_frame(e.modem, c.said, octets, frame);
    Applied {
        number: answer_number(r.answer),
        key: r.number,
        width: 0,
        frame: r.width,
        count: 0,
        ends: e,
    }
}

// A frame's octets that reach the modem.
pub fn apply_open_down_frame(
    e: Ends,
    c: Call,
    octets: &[u8],
    write: &[u8],
    frame: &mut [u8],
    out: &mut [u8],
) -> Applied
    ensures { AppliesFrameSent (world_of e) (World.open_down_frame_of c.word c.address c.said c.number octets.now write.now (length frame.old) (length out.old))
        frame.old out.old result frame.new out.new }
{
    let r = open_frame(
        e.modem, c.word, c.address, c.said, c.number, octets, write, frame, out,
    );
    Applied {
        number: answer_number(r.answer),
        key: TekNumber(0),
        width: 0,
        frame: r.width,
        count: r.count,
        ends: Ends {
            modem: r.modem,
            ..e
        },
    }
}
