// A machine's one timer: which event it fires follows from the machine's state.
ghost use Rattle.std.specs.Prelude.{◌≡◌};
ghost use Rattle.modem_transitions.specs.Timers.{off, set_at, is_due_of};

// What `on` may be.
pub const OFF: u8 = 0;

pub const ON: u8 = 1;

// `on` is OFF or ON; where it is OFF, `at` is 0.
#[repr(C)]
#[derive(Clone, Copy)]
pub struct Timer {
    pub on: u8,
    pub at: u64,
}

// A timer that is off.
pub fn cleared() -> Timer
    ensures { result ≡ off }
{
    Timer { on: OFF, at: 0 }
}

// A timer that fires at `t`.
pub fn set_at(t: u64) -> Timer
    ensures { result ≡ set_at t }
{
    Timer { on: ON, at: t }
}

// Whether a timer has to fire.
#[tactic(auto, unfolding(crate::specs::Timers::is_due_of))]
pub fn is_due(t: Timer, clock: u64) -> bool
    ensures { result ≡ is_due_of t clock }
{
    (t.on == ON) & (t.at <= clock)
}
