// One line of a run.
ghost use Rattle.std.specs.Prelude.{◌≡◌, ◌≤◌, length};
ghost use Rattle.replay_answer.specs.Answer.{answer_line};
ghost use Rattle.replay.specs.declared.start.Stage.TheVariants.{Running};
ghost use Rattle.replay.specs.Takes.{Takes};

use crate::lines::{Taken, take_modem, take_modem_names, take_settings, take_settings_names};
use crate::start::{Replay, Stage};
use crate::turn::turn;

fn take_call(s: Replay, line: &[u8], out: &mut [u8]) -> Taken
    requires { answer_line ≤ length out.old }
    ensures { Takes Running s line.now out.old result out.new }
{
    let t = turn(s.ends, line, out);
    let replay = Replay {
        stage: Stage::Running,
        ends: t.ends,
        ..s
    };
    Taken {
        count: t.count,
        replay,
    }
}

fn take_none(s: Replay) -> Taken
    ensures { result ≡ record { count = 0; replay = s } }
{
    Taken {
        count: 0,
        replay: s,
    }
}

// A line, without its line feed: the run after it, and what is answered to it at the front of `out`.
pub fn take_line(s: Replay, line: &[u8], out: &mut [u8]) -> Taken
    requires { answer_line ≤ length out.old }
    ensures { Takes s.stage s line.now out.old result out.new }
{
    match s.stage {
        Stage::SettingsNames => take_settings_names(s, line, out),
        Stage::SettingsValues => take_settings(s, line, out),
        Stage::ModemNames => take_modem_names(s, line, out),
        Stage::ModemValues => take_modem(s, line, out),
        Stage::Running => take_call(s, line, out),
        Stage::Stopped => take_none(s),
    }
}
