//! Scales with round numbers.

ghost use Rattle.std.specs.Prelude.{◌≡◌, ◌+◌, ◌-◌, ◌*◌, ◌/◌, ◌<◌, ◌≤◌, Some, find};
ghost use Rattle.vx_clock.specs.declared.limits.TheConstants.{DAY_MINUTES, MINUTE_MAX};
ghost use Rattle.vixplot.specs.declared.limits.TheConstants.{CENT_SCALE_MAX, CENT_STEP_MAX};
ghost use Rattle.vixplot.specs.Scales.{place_in, reaches};

use crate::limits::{CENT_STEP_MAX, HEIGHT, LEFT, STEPS_MAX, TIMES_MAX, TOP, WIDTH};
use vx_num::limits::CENTS_MAX;

/// The distances that lines of the scale of figures may have, in hundredths of a point.
const CENT_STEPS: [u32; 15] = [
    1, 2, 5, 10, 20, 50, 100, 200, 500, 1_000, 2_000, 5_000, 10_000, 20_000, 50_000,
];

/// The distances that lines of the scale of times may have, in minutes.
const MINUTE_STEPS: [u16; 8] = [1, 2, 5, 10, 15, 30, 60, 120];

/// The scale of figures, in hundredths of a point: from one multiple of its step to another one.
#[derive(Clone, Copy)]
pub struct Scale {
    pub first: u32,
    pub last: u32,
    pub step: u32,
    pub ghost has_step: { 0 < step },
    pub ghost rises: { first < last },
    pub ghost is_small: { last ≤ CENT_SCALE_MAX },
}

/// The least of the steps of which few enough reach from one figure to another.
fn cent_step(low: u32, high: u32) -> u32
    requires order { low ≤ high }
    requires range { high ≤ CENTS_MAX }
    ensures first { find (reaches (high - low) STEPS_MAX) CENT_STEPS ≡ Some result }
    ensures positive { 0 < result }
    ensures small { result ≤ CENT_STEP_MAX }
{
    let reaching = CENT_STEPS
        .iter()
        .copied()
        .find(|&step| high - low <= STEPS_MAX * step);
    reaching.unwrap_or(CENT_STEP_MAX)
}

impl Scale {
    /// The finest scale around two figures that has few enough steps.
    pub fn around(low: u32, high: u32) -> Scale
        requires order { low ≤ high }
        requires range { high ≤ CENTS_MAX }
        ensures step { find (reaches (high - low) STEPS_MAX) CENT_STEPS ≡ Some result.step }
        ensures first { result.first ≡ low / result.step * result.step }
        ensures last { result.last ≡ (high / result.step + 1) * result.step }
        ensures low { result.first ≤ low }
        ensures high { high < result.last }
    {
        let step = cent_step(low, high);
        Scale {
            first: low / step * step,
            last: (high / step + 1) * step,
            step,
        }
    }

    /// How far down a figure stands.
    pub fn place(&self, cents: u32) -> u32
        requires first { self.now.first ≤ cents }
        requires last { cents ≤ self.now.last }
        ensures place { result ≡ TOP + place_in (self.now.last - cents) (self.now.last - self.now.first) HEIGHT }
        ensures inside { result ≤ TOP + HEIGHT }
    {
        TOP + (self.last - cents) * HEIGHT / (self.last - self.first)
    }
}

/// The scale of times, in minutes of the day.
#[derive(Clone, Copy)]
pub struct Times {
    pub first: u16,
    pub last: u16,
    pub step: u16,
    pub ghost has_step: { 0 < step },
    pub ghost rises: { first < last },
    pub ghost in_day: { last ≤ DAY_MINUTES },
}

/// The least of the steps of which few enough reach over so many minutes.
fn minute_step(minutes: u16) -> u16
    requires { minutes ≤ DAY_MINUTES }
    ensures first { find (reaches minutes TIMES_MAX) MINUTE_STEPS ≡ Some result }
    ensures positive { 0 < result }
{
    let reaching = MINUTE_STEPS
        .iter()
        .copied()
        .find(|&step| minutes <= TIMES_MAX * step);
    reaching.unwrap_or(120)
}

impl Times {
    /// The finest scale from one minute to another that has few enough lines. It is a minute wide at
    /// least.
    pub fn between(first: u16, last: u16) -> Times
        requires order { first ≤ last }
        requires day { last ≤ MINUTE_MAX }
        ensures first { result.first ≡ first }
        ensures last { last ≤ result.last }
        ensures end { result.last ≤ last + 1 }
        ensures step { find (reaches (result.last - first) TIMES_MAX) MINUTE_STEPS ≡ Some result.step }
    {
        let last = last.max(first + 1);
        Times {
            first,
            last,
            step: minute_step(last - first),
        }
    }

    /// How far to the right a minute stands.
    pub fn place(&self, minute: u16) -> u32
        requires first { self.now.first ≤ minute }
        requires last { minute ≤ self.now.last }
        ensures place { result ≡ LEFT + place_in (minute - self.now.first) (self.now.last - self.now.first) WIDTH }
        ensures left { LEFT ≤ result }
        ensures inside { result ≤ LEFT + WIDTH }
    {
        LEFT + u32::from(minute - self.first) * WIDTH / u32::from(self.last - self.first)
    }

    /// How wide the bar of a minute is.
    pub fn bar_width(&self) -> u32
        ensures wide { 30 ≤ result }
        ensures narrow { result ≤ 600 }
    {
        (WIDTH / u32::from(self.last - self.first)).clamp(30, 600)
    }
}
