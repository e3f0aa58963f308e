// The settings that both ends share, and the question that asks their limits (question 1).
ghost use Rattle.std.specs.Prelude.{◌≡◌};
ghost use Rattle.questions.specs.Settings.{half_of, life_fits_of, tek_times_fit_of, ak_times_fit_of, wait_fits_of, waits_fit_of, settings_fit_of, no_settings_of};

use crate::limits::{
    AK_LIFE_MAX, AK_LIFE_MIN, GRACE_MIN, TEK_LIFE_MAX, TEK_LIFE_MIN, WAIT_MAX, WAIT_MIN,
};

// Traffic keys: lifetime L and grace, in seconds.
#[repr(C)]
#[derive(Clone, Copy, Debug, Default, PartialEq, Eq)]
pub struct TekTimes {
    pub life: u64,
    pub grace: u64,
}

// Authorization keys: lifetime A and grace, in seconds.
#[repr(C)]
#[derive(Clone, Copy, Debug, Default, PartialEq, Eq)]
pub struct AkTimes {
    pub life: u64,
    pub grace: u64,
}

// How long a modem waits before a timeout in each waiting state, in seconds.
#[repr(C)]
#[derive(Clone, Copy, Debug, Default, PartialEq, Eq)]
pub struct Waits {
    pub authorize: u64,
    pub reauthorize: u64,
    pub operational: u64,
    pub rekey: u64,
    pub reject: u64,
}

// All settings; both ends have the same.
#[repr(C)]
#[derive(Clone, Copy, Debug, Default, PartialEq, Eq)]
pub struct Settings {
    pub tek: TekTimes,
    pub ak: AkTimes,
    pub waits: Waits,
}

// H, half of the TEK lifetime.
pub fn half(t: TekTimes) -> u64
    ensures { result ≡ half_of t }
{
    t.life / 2
}

// Whether a TEK's life may be set: even, so that H is whole.
pub fn life_fits(life: u64) -> bool
    ensures { result ≡ life_fits_of life }
{
    (life % 2 == 0) & (TEK_LIFE_MIN <= life) & (life <= TEK_LIFE_MAX)
}

// Whether life and grace of traffic keys may be set.
pub fn tek_times_fit(t: TekTimes) -> bool
    ensures { result ≡ tek_times_fit_of t }
{
    life_fits(t.life) & (GRACE_MIN <= t.grace) & (t.grace < half(t))
}

// Whether life and grace of authorization keys may be set.
pub fn ak_times_fit(t: AkTimes) -> bool
    ensures { result ≡ ak_times_fit_of t }
{
    (AK_LIFE_MIN <= t.life)
        & (t.life <= AK_LIFE_MAX)
        & (GRACE_MIN <= t.grace)
        & (t.grace <= t.life / 2)
}

fn wait_fits(seconds: u64) -> bool
    ensures { result ≡ wait_fits_of seconds }
{
    (WAIT_MIN <= seconds) & (seconds <= WAIT_MAX)
}

// Whether all five waits may be set.
pub fn waits_fit(w: Waits) -> bool
    ensures { result ≡ waits_fit_of w }
{
    wait_fits(w.authorize)
        & wait_fits(w.reauthorize)
        & wait_fits(w.operational)
        & wait_fits(w.rekey)
        & wait_fits(w.reject)
}

// Question 1 of the settings.
pub fn settings_fit(s: Settings) -> bool
    ensures { result ≡ settings_fit_of s }
{
    tek_times_fit(s.tek) & ak_times_fit(s.ak) & waits_fit(s.waits)
}

// All zero.
pub fn no_settings() -> Settings
    ensures { result ≡ no_settings_of }
{
    Settings::default()
}
