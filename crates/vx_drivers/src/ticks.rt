//! What answers the ticks of a feed.

ghost use Rattle.std.specs.Prelude.{◌≡◌, List, [], Option};
ghost use Rattle.vx_feed.specs.declared.events.Event.{Event};
ghost use Rattle.vx_drivers.specs.TickRun.{TickRules};
ghost use Rattle.vx_drivers.specs.TickSteps.{GivesLast};

use vx_num::NoMemory;
use vx_reading::TakesEvents;

/// How many answers a tick is given, by their kinds.
#[derive(Clone, Copy, Debug, PartialEq, Eq)]
pub struct Tally {
    pub published: u32,
    pub undecided: u32,
    pub refused: u32,
}

/// What answers the ticks of a feed, whose events it takes up.
pub trait AnswersTicks: TakesEvents {
    /// What a tick is given.
    ghost Answer: { Type 0 };

    /// What it makes of the events of a feed.
    ghost rules: { TickRules Answer };

    /// Writes what the last event is given, and says how many answers that is: `None` where the event is
    /// no tick. `certificate` is then what goes to the file of certificates, empty where there is none,
    /// and `line` what goes to the output.
    fn answer(
        &self,
        certificate: &mut Vec<u8>,
        line: &mut Vec<u8>,
    ) -> Result<Option<Tally>, NoMemory>
        requires certificate { certificate.old.items ≡ [] }
        requires line { line.old.items ≡ [] }
        ensures { GivesLast rules Self.StandsFor self.now certificate.new.items line.new.items result };

    /// An event is given one thing at most.
    ghost gives_one: { (events : List Event) (a b : Option Answer)
        → rules.IsGiven events a → rules.IsGiven events b → a ≡ b };
}
