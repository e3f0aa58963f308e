// The clock call, which reaches both ends.
ghost use Rattle.std.specs.Prelude.{◌≡◌, length};
ghost use Rattle.demand_plant.specs.World.{clock};
ghost use Rattle.replay_apply.specs.Steps.{world_of};
ghost use Rattle.replay_apply.specs.Applied.{AppliesSent};

use crate::ends::{Applied, Ends, refused};
use crate::held::clock_held;
use crate::modem_side::clock_modem;
use modem_calls::calls::clock_answer;
use questions::refusal::{answer_number, earlier_number};
use replay_read::calls::Call;

// The clock goes to the second at both ends, or at neither; where both refuse, the number is the earlier question's.
pub fn apply_clock(e: Ends, c: Call, octets: &[u8], write: &[u8], out: &mut [u8]) -> Applied
    ensures { AppliesSent (world_of e) (clock c.second octets.now write.now (length out.old))
        out.old result out.new }
{
    let r = clock_held(e.head, e.records, c.second, octets);
    match r.called.answer {
        Ok(()) => clock_modem(e, r.called.state, r.records, c.second, write, out),
        Err(no) => {
            let other = clock_answer(e.modem, c.second, write, out.len());
            refused(earlier_number(u8::from(no), answer_number(other)), e)
        }
    }
}
