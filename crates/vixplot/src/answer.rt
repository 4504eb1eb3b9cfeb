//! What the lines of a day say.

ghost use Rattle.std.specs.Prelude.{◌≡◌};
ghost use Rattle.vixplot.specs.Answers.{shows_figure, shows_refusal, shows_undecided};

use std::fmt;

/// Which term an answer speaks of.
#[derive(Clone, Copy)]
pub enum Which {
    Near,
    Next,
    Both,
}

/// Why a tick is refused.
#[derive(Clone, Copy)]
pub enum Reason {
    NoTerm,
    NoRate,
    NoPair,
    NoStrikeBelow,
    NoStrikeAbove,
    NoMoney,
    NoPut,
    NoCall,
    StripTooLarge,
    NegativeVariance,
}

/// The answer to a tick.
#[derive(Clone, Copy)]
pub enum Answer {
    /// The figure, in hundredths of a point.
    Figure(u32),
    UndecidedCents,
    UndecidedForward(Which),
    Refused(Reason, Which),
}

/// A tick, at a minute of the day.
#[derive(Clone, Copy)]
pub struct Tick {
    pub minute: u16,
    pub answer: Answer,
}

/// How many ticks there are, and how they are answered.
#[derive(Clone, Copy, PartialEq, Eq)]
pub struct Counts {
    pub ticks: u64,
    pub published: u64,
    pub undecided: u64,
    pub refused: u64,
}

/// A line that `replay` prints.
#[derive(Clone, Copy)]
pub enum Line {
    Tick(Tick),
    End(Counts),
}

impl Answer {
    /// It is a figure.
    pub fn is_published(self) -> bool
        ensures { result ≡ shows_figure self }
    {
        match self {
            Answer::Figure(_) => true,
            _ => false,
        }
    }

    /// It is a refusal.
    pub fn is_refused(self) -> bool
        ensures { result ≡ shows_refusal self }
    {
        match self {
            Answer::Refused(_, _) => true,
            _ => false,
        }
    }

    /// It is neither.
    pub fn is_undecided(self) -> bool
        ensures { result ≡ shows_undecided self }
    {
        !self.is_published() && !self.is_refused()
    }
}

impl fmt::Display for Which {
    fn fmt<W: fmt::Write>(&self, f: &mut fmt::Formatter<W>) -> fmt::Result {
        match self {
            Which::Near => write!(f, "near"),
            Which::Next => write!(f, "next"),
            Which::Both => write!(f, "both"),
        }
    }
}

impl fmt::Display for Reason {
    fn fmt<W: fmt::Write>(&self, f: &mut fmt::Formatter<W>) -> fmt::Result {
        match self {
            Reason::NoTerm => write!(f, "no-term"),
            Reason::NoRate => write!(f, "no-rate"),
            Reason::NoPair => write!(f, "no-pair"),
            Reason::NoStrikeBelow => write!(f, "no-strike-below"),
            Reason::NoStrikeAbove => write!(f, "no-strike-above"),
            Reason::NoMoney => write!(f, "no-money"),
            Reason::NoPut => write!(f, "no-put"),
            Reason::NoCall => write!(f, "no-call"),
            Reason::StripTooLarge => write!(f, "strip-too-large"),
            Reason::NegativeVariance => write!(f, "negative-variance"),
        }
    }
}

impl fmt::Display for Answer {
    fn fmt<W: fmt::Write>(&self, f: &mut fmt::Formatter<W>) -> fmt::Result {
        match self {
            Answer::Figure(cents) => write!(f, "{}.{:02}", *cents / 100, *cents % 100),
            Answer::UndecidedCents => write!(f, "undecided: cents"),
            Answer::UndecidedForward(which) => write!(f, "undecided: forward, {which}"),
            Answer::Refused(reason, which) => write!(f, "refused: {reason}, {which}"),
        }
    }
}
