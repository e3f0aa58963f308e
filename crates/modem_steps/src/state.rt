// The modem's state, the messages of one call, and what a call hands back.
ghost use Rattle.std.specs.Prelude.{◌≡◌};
ghost use Rattle.modem_steps.specs.State.{no_tek_of, no_out_of, with_message_of, starting, fresh_of};

use key_traffic::numbers::AkNumber;
use message_rules::codes::CODE_NONE;
use modem_authorization::authorization::Authorization;
use modem_tek::parts::{Request, no_pair, no_request};
use modem_tek::tek::Tek;
use modem_transitions::states::{AUTH_START, TEK_START};
use modem_transitions::timer::cleared;
use questions::limits::SAIDS_MAX;
use questions::refusal::Answer;
use questions::settings::Settings;

// `said` is the modem's own, which its Authorization Requests carry; `counter` is the last Identifier taken; of the four slots the first
// `used` hold machines; `taken` and `refused` count frames.
#[repr(C)]
#[derive(Clone, Copy)]
pub struct Modem {
    pub settings: Settings,
    pub address: u64,
    pub said: u16,
    pub clock: u64,
    pub counter: u8,
    pub authorization: Authorization,
    pub used: usize,
    pub teks: [Tek; SAIDS_MAX],
    pub taken: u64,
    pub refused: u64,
}

// Messages that one call sends, at most.
pub const MESSAGES_MAX: usize = 6;

// The messages of one call in order: the first `count`. An array with its length, and no list of std's: there is no heap.
#[derive(Clone, Copy)]
pub struct Out {
    pub count: usize,
    pub sent: [Request; MESSAGES_MAX],
}

// The modem on its way through a call, with the messages so far. What a step asks of it, `Ready`, stands in the contracts and is no invariant: the
// definitions and theorems make and speak of any Progress.
#[derive(Clone, Copy)]
pub struct Progress {
    pub modem: Modem,
    pub out: Out,
}

// What a call hands back: the answer, the modem after it, and how many octets of messages were written.
#[derive(Clone, Copy)]
pub struct Called {
    pub answer: Answer,
    pub modem: Modem,
    pub count: usize,
}

// A slot that is not in use.
pub fn no_tek() -> Tek
    ensures { result ≡ no_tek_of }
{
    Tek {
        said: 0,
        suite: 0,
        state: TEK_START,
        identifier: 0,
        timer: cleared(),
        pair: no_pair(),
    }
}

// A modem at clock 0 that knows no SAID; its own is only sent.
pub fn fresh(settings: Settings, address: u64, said: u16) -> Modem
    ensures { result ≡ fresh_of settings address said }
{
    Modem {
        settings,
        address,
        said,
        clock: 0,
        counter: 0,
        authorization: Authorization {
            state: AUTH_START,
            identifier: 0,
            ak: AkNumber(0),
            timer: cleared(),
        },
        used: 0,
        teks: [no_tek(); SAIDS_MAX],
        taken: 0,
        refused: 0,
    }
}

// No messages.
pub fn no_out() -> Out
    ensures { result ≡ no_out_of }
{
    Out {
        count: 0,
        sent: [no_request(); MESSAGES_MAX],
    }
}

impl Out {
    // One message more, where there is one and room for it.
    #[tactic(auto, unfolding(crate::specs::State::with_message_of))]
    pub fn with_message(self, r: Request) -> Out
        ensures { result ≡ with_message_of self r }
    {
        if (r.code == CODE_NONE) | (MESSAGES_MAX <= self.count) {
            return self;
        }
        let mut out = self;
        out.sent[self.count] = r;
        out.count += 1;
        out
    }
}

// A call begins: nothing is sent yet.
pub fn start(modem: Modem) -> Progress
    ensures { result ≡ starting modem }
{
    Progress {
        modem,
        out: no_out(),
    }
}
