// The set-up lines of a replay: the names, the settings, and a modem.
ghost use Rattle.std.specs.Prelude.{◌≡◌, ◌≤◌, length};
ghost use Rattle.replay_read.specs.Setup.{settings_names_of, modem_names_of, settings_of, modem_of, three_at_of};

use questions::settings::{AkTimes, Settings, TekTimes, Waits};
use replay_fields::fields::{LINE_MAX, count_fields, field_at, number_of, to_u16};

// Fields of the line of settings and of the line of a modem.
const SETTINGS_FIELDS: usize = 9;

const MODEM_FIELDS: usize = 2;

// The two lines of names.
const SETTINGS_NAMES: &[u8] =
    b"life,grace,aklife,akgrace,authorize,reauthorize,operational,rekey,reject";

const MODEM_NAMES: &[u8] = b"address,said";

// A modem: its address and its SAID.
#[derive(Clone, Copy)]
pub struct ReadModem {
    pub address: u64,
    pub said: u16,
}

// The numbers of three fields, and the place after them.
#[derive(Clone, Copy)]
pub struct Three {
    pub first: u64,
    pub second: u64,
    pub third: u64,
    pub next: usize,
}

// Whether a line is the names of the settings.
#[tactic(auto, unfolding(crate::specs::Setup::settings_names_of, text::specs::Same::same_octets_of))]
pub fn is_settings_names(line: &[u8]) -> bool
    ensures { result ≡ settings_names_of line.now }
{
    line == SETTINGS_NAMES
}

// Whether a line is the names of a modem's fields.
#[tactic(auto, unfolding(crate::specs::Setup::modem_names_of, text::specs::Same::same_octets_of))]
pub fn is_modem_names(line: &[u8]) -> bool
    ensures { result ≡ modem_names_of line.now }
{
    line == MODEM_NAMES
}

fn three_at(line: &[u8], at: usize) -> Option<Three>
    requires { length line.now ≤ 16384 }
    ensures { result ≡ three_at_of line.now at }
{
    let a = field_at(line, at);
    let first = number_of(line, a)?;
    let b = field_at(line, a.end + 1);
    let second = number_of(line, b)?;
    let c = field_at(line, b.end + 1);
    let third = number_of(line, c)?;
    Some(Three {
        first,
        second,
        third,
        next: c.end + 1,
    })
}

// Nine numbers, in the order of the names.
pub fn read_settings(line: &[u8]) -> Option<Settings>
    ensures { result ≡ settings_of line.now }
{
    if LINE_MAX < line.len() || count_fields(line) != SETTINGS_FIELDS {
        return None;
    }
    let a = three_at(line, 0)?;
    let b = three_at(line, a.next)?;
    let c = three_at(line, b.next)?;
    let tek = TekTimes {
        life: a.first,
        grace: a.second,
    };
    let ak = AkTimes {
        life: a.third,
        grace: b.first,
    };
    let waits = Waits {
        authorize: b.second,
        reauthorize: b.third,
        operational: c.first,
        rekey: c.second,
        reject: c.third,
    };
    Some(Settings { tek, ak, waits })
}

// An address and a SAID.
pub fn read_modem(line: &[u8]) -> Option<ReadModem>
    ensures { result ≡ modem_of line.now }
{
    if LINE_MAX < line.len() || count_fields(line) != MODEM_FIELDS {
        return None;
    }
    let a = field_at(line, 0);
    let address = number_of(line, a)?;
    let b = field_at(line, a.end + 1);
    let said = number_of(line, b)?;
    Some(ReadModem {
        address,
        said: to_u16(said),
    })
}
