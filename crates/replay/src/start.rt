// Where a run stands, and its four lines of set-up.
ghost use Rattle.std.specs.Prelude.{◌≡◌};
ghost use Rattle.key_association.specs.Search.{blank};
ghost use Rattle.replay.specs.Replay.{fresh_ends_of, beginning, at_stage_of, settings_read_of, both_fit_of, modem_read_of};

use headend_state::state::fresh;
use key_association::record::Assoc;
use key_association::search::missed_at;
use questions::limits::RECORDS_MAX;
use questions::settings::{Settings, no_settings};
use replay_apply::ends::Ends;
use replay_read::setup::ReadModem;

// The line that comes next: one of the four of set-up, or a call; or the run is over.
#[derive(Clone, Copy)]
pub enum Stage {
    SettingsNames,
    SettingsValues,
    ModemNames,
    ModemValues,
    Running,
    Stopped,
}

// Where a run stands: its stage, the settings read, and both ends.
#[derive(Clone, Copy)]
pub struct Replay {
    pub stage: Stage,
    pub settings: Settings,
    pub ends: Ends,
}

fn blank_record() -> Assoc
    ensures { result ≡ blank }
{
    missed_at(0).held
}

// The fresh pair with 64 blank records.
fn fresh_ends(settings: Settings, address: u64, said: u16) -> Ends
    ensures { result ≡ fresh_ends_of settings address said }
{
    let blank = blank_record();
    Ends {
        head: fresh(settings),
        records: [blank; RECORDS_MAX],
        modem: modem_steps::state::fresh(settings, address, said),
    }
}

// Before the first line.
pub fn begin() -> Replay
    ensures { result ≡ beginning }
{
    let settings = no_settings();
    Replay {
        stage: Stage::SettingsNames,
        settings,
        ends: fresh_ends(settings, 0, 0),
    }
}

// A run gone on to another stage.
pub fn at_stage(s: Replay, stage: Stage) -> Replay
    ensures { result ≡ at_stage_of s stage }
{
    Replay { stage, ..s }
}

// A run after the line of settings; it is over where the line has not its form.
pub fn settings_read(r: Option<Settings>, s: Replay) -> Replay
    ensures { result ≡ settings_read_of r s }
{
    match r {
        Some(settings) => Replay {
            stage: Stage::ModemNames,
            settings,
            ..s
        },
        None => at_stage(s, Stage::Stopped),
    }
}

// Whether both ends take the set-up values.
pub fn both_fit(settings: Settings, address: u64, said: u16) -> bool
    ensures { result ≡ both_fit_of settings address said }
{
    let h = headend_calls::calls::new(settings);
    let m = modem_calls::calls::new(settings, address, said);
    h.answer.is_ok() & m.answer.is_ok()
}

// A run after the line of a modem; it is over where the line has not its form or an end refuses it.
pub fn modem_read(r: Option<ReadModem>, s: Replay) -> Replay
    ensures { result ≡ modem_read_of r s }
{
    match r {
        Some(m) if both_fit(s.settings, m.address, m.said) => Replay {
            stage: Stage::Running,
            ends: fresh_ends(s.settings, m.address, m.said),
            ..s
        },
        _ => at_stage(s, Stage::Stopped),
    }
}
