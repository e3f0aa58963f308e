// The lines of set-up, and the end of a run: the run after each, and what is answered.
ghost use Rattle.std.specs.Prelude.{◌≡◌, cond, ◌≤◌, length};
ghost use Rattle.key_traffic.specs.Octets.{overlay};
ghost use Rattle.replay_answer.specs.Answer.{answer_line};
ghost use Rattle.replay.specs.declared.start.Stage.TheVariants.{SettingsNames, SettingsValues, ModemNames, ModemValues, Running, Stopped};
ghost use Rattle.replay.specs.Turn.{no_call_text};
ghost use Rattle.replay.specs.Replay.{start_text, limits_text, modem_text, end_text_at, end_text};
ghost use Rattle.replay.specs.Takes.{Takes};

use crate::start::{Replay, Stage, at_stage, both_fit, modem_read, settings_read};
use replay_answer::answer::put_counts;
use replay_apply::ends::Ends;
use replay_read::setup::{ReadModem, is_modem_names, is_settings_names, read_modem, read_settings};
use text::put::put_text;

// The run after a line, and how many characters were answered.
#[derive(Clone, Copy)]
pub struct Taken {
    pub count: usize,
    pub replay: Replay,
}

// "?" and a line feed.
pub fn put_no_call(out: &mut [u8]) -> usize
    requires { answer_line ≤ length out.old }
    ensures { (result ≡ 2) × (out.new ≡ overlay out.old no_call_text) }
{
    put_text(out, 0, b"?\n")
}

// A line of set-up answers nothing where it has its form.
fn put_start(form: bool, out: &mut [u8]) -> usize
    requires { answer_line ≤ length out.old }
    ensures value { (result ≡ length (start_text form)) × (out.new ≡ overlay out.old (start_text form)) }
    ensures upper_bound { result ≤ answer_line }
{
    if form { 0 } else { put_no_call(out) }
}

// "1" and a line feed.
fn put_limits(out: &mut [u8]) -> usize
    requires { answer_line ≤ length out.old }
    ensures { (result ≡ 2) × (out.new ≡ overlay out.old limits_text) }
{
    put_text(out, 0, b"1\n")
}

fn put_modem(r: Option<ReadModem>, s: Replay, out: &mut [u8]) -> usize
    requires { answer_line ≤ length out.old }
    ensures value { (result ≡ length (modem_text r s)) × (out.new ≡ overlay out.old (modem_text r s)) }
    ensures upper_bound { result ≤ answer_line }
{
    match r {
        None => put_no_call(out),
        Some(m) if both_fit(s.settings, m.address, m.said) => 0,
        Some(_) => put_limits(out),
    }
}

fn next_stage(form: bool, next: Stage) -> Stage
    ensures { result ≡ cond form next Stopped }
{
    if form { next } else { Stage::Stopped }
}

// The first line: the names of the settings.
pub fn take_settings_names(s: Replay, line: &[u8], out: &mut [u8]) -> Taken
    requires { answer_line ≤ length out.old }
    ensures { Takes SettingsNames s line.now out.old result out.new }
{
    let form = is_settings_names(line);
    let count = put_start(form, out);
    let stage = next_stage(form, Stage::SettingsValues);
    Taken {
        count,
        replay: at_stage(s, stage),
    }
}

// The second line: the settings.
pub fn take_settings(s: Replay, line: &[u8], out: &mut [u8]) -> Taken
    requires { answer_line ≤ length out.old }
    ensures { Takes SettingsValues s line.now out.old result out.new }
{
    let x = read_settings(line);
    let count = put_start(x.is_some(), out);
    Taken {
        count,
        replay: settings_read(x, s),
    }
}

// The third line: the names of a modem's fields.
pub fn take_modem_names(s: Replay, line: &[u8], out: &mut [u8]) -> Taken
    requires { answer_line ≤ length out.old }
    ensures { Takes ModemNames s line.now out.old result out.new }
{
    let form = is_modem_names(line);
    let count = put_start(form, out);
    let stage = next_stage(form, Stage::ModemValues);
    Taken {
        count,
        replay: at_stage(s, stage),
    }
}

// The fourth line: the modem.
pub fn take_modem(s: Replay, line: &[u8], out: &mut [u8]) -> Taken
    requires { answer_line ≤ length out.old }
    ensures { Takes ModemValues s line.now out.old result out.new }
{
    let x = read_modem(line);
    let count = put_modem(x, s, out);
    Taken {
        count,
        replay: modem_read(x, s),
    }
}

// The counts of frames of both ends.
fn put_ends(e: Ends, out: &mut [u8]) -> usize
    requires { answer_line ≤ length out.old }
    ensures { (result ≡ length (end_text_at Running e)) × ((out.new ≡ overlay out.old (end_text_at Running e)) × (result ≤ answer_line)) }
{
    let h = e.head;
    let m = e.modem;
    put_counts(h.taken, h.refused, m.taken, m.refused, out)
}

// What is answered after the last line.
pub fn put_end(s: Replay, out: &mut [u8]) -> usize
    requires { answer_line ≤ length out.old }
    ensures { (result ≡ length (end_text s)) × ((out.new ≡ overlay out.old (end_text s)) × (result ≤ answer_line)) }
{
    match s.stage {
        Stage::Running => put_ends(s.ends, out),
        Stage::Stopped => 0,
        Stage::SettingsNames | Stage::SettingsValues | Stage::ModemNames | Stage::ModemValues =>
            put_no_call(out),
    }
}
