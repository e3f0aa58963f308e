// Both ends and the records by value, and what applying a call hands back.
ghost use Rattle.std.specs.Prelude.{◌≡◌};
ghost use Rattle.replay_apply.specs.Applied.{quiet_of, refused_of};

use headend_state::state::HeadEnd;
use key_association::record::Assoc;
use key_traffic::numbers::TekNumber;
use modem_steps::state::Modem;
use questions::limits::RECORDS_MAX;

// The head-end, its records, and the modem.
#[derive(Clone, Copy)]
pub struct Ends {
    pub head: HeadEnd,
    pub records: [Assoc; RECORDS_MAX],
    pub modem: Modem,
}

// Document 01's number; of a sealing the key's number; how many octets of TEK and of vector were written, how many of a frame, and how many of
// messages; both ends after the call.
#[derive(Clone, Copy)]
pub struct Applied {
    pub number: u8,
    pub key: TekNumber,
    pub width: usize,
    pub frame: usize,
    pub count: usize,
    pub ends: Ends,
}

// A call that gives neither key nor frame.
pub fn quiet(
    number: u8,
    count: usize,
    head: HeadEnd,
    records: [Assoc; RECORDS_MAX],
    modem: Modem,
) -> Applied
    ensures { result ≡ quiet_of number count head records modem }
{
    let ends = Ends {
        head,
        records,
        modem,
    };
    Applied {
        number,
        key: TekNumber(0),
        width: 0,
        frame: 0,
        count,
        ends,
    }
}

// A call that changes nothing and gives nothing.
pub fn refused(number: u8, e: Ends) -> Applied
    ensures { result ≡ refused_of number e }
{
    Applied {
        number,
        key: TekNumber(0),
        width: 0,
        frame: 0,
        count: 0,
        ends: e,
    }
}
