//! What answers the opening of a feed, and settles positions on the answer.

ghost use Rattle.std.specs.Prelude.{◌≡◌, ◌<◌, ℕ, List, [], Some, Result, Err};
ghost use Rattle.vx_feed.specs.declared.events.Event.{Event};
ghost use Rattle.vx_settle.specs.declared.fault.PositionFault.{PositionFault};
ghost use Rattle.vx_settle.specs.Form.{unsplit_fault};
ghost use Rattle.vx_blocks.specs.SplitLines.{IsSplit};
ghost use Rattle.vx_drivers.specs.declared.limits.TheConstants.{POSITION_LINES_MAX};
ghost use Rattle.vx_drivers.specs.PositionRun.{PositionRules};
ghost use Rattle.vx_drivers.specs.PositionSteps.{AnswersOpeningOf, HasItems, HasTakenUpLawful, SettlesNext, WritesLast};

use vx_fields::Fields;
use vx_num::NoMemory;
use vx_reading::TakesEvents;
use vx_settle::PositionFault;

/// The answer to an opening, with what the lines of positions that were read so far came to.
pub trait SettlesPositions: Drop {
    /// What an opening is answered.
    ghost Answer: { Type 0 };

    /// What a line of positions comes to.
    ghost Item: { Type 0 };

    /// What it makes of a feed's events and of lines of positions.
    ghost rules: { PositionRules Answer Item };

    /// The answer that a sheet has, and the items on it.
    ghost StandsAt: { Self → Answer → List Item → Type 0 };

    /// Settles the next line of positions, after `count` lines, by the fields into which it was split, and writes
    /// what the output says of it. A fault says that the line is no position; the fault is never `NoMemory`.
    fn settle(
        &mut self,
        count: u64,
        fields: &Fields<'_>,
        line: &mut Vec<u8>,
    ) -> Result<Option<PositionFault>, NoMemory>
        requires few { count < POSITION_LINES_MAX }
        requires items { HasItems StandsAt self.old count }
        requires empty { line.old.items ≡ [] }
        ensures { (text : List ℕ) → IsSplit text fields.now
            → SettlesNext rules StandsAt self.old count text line.new.items self.new result };

    /// Writes the last lines, after `count` lines.
    fn end(&self, count: u64, line: &mut Vec<u8>) -> Result<(), NoMemory>
        requires items { HasItems StandsAt self.now count }
        requires empty { line.old.items ≡ [] }
        ensures { WritesLast rules StandsAt self.now count line.new.items result };

    /// A line that can't be split is no position.
    ghost none_unsplit: { (answer : Answer) (text : List ℕ) (fault : PositionFault) → unsplit_fault text ≡ Some fault
        → rules.ComesTo answer text (Err fault) };

    /// The opening of some events has one answer at most.
    ghost opens_one: { (events : List Event) (a b : Answer) → rules.IsOpening events a → rules.IsOpening events b
        → a ≡ b };

    /// A line comes to one thing at most.
    ghost comes_to_one: { (answer : Answer) (text : List ℕ) (a b : Result Item PositionFault)
        → rules.ComesTo answer text a → rules.ComesTo answer text b → a ≡ b };
}

/// What answers the opening of a feed, whose events it takes up.
pub trait AnswersOpening: TakesEvents {
    /// What positions are settled on.
    type Sheet: SettlesPositions;

    /// Answers the opening of the events. `certificate` is then what goes to the file of certificates,
    /// empty where there is none, and `line` what goes to the output.
    fn answer_opening(
        &self,
        certificate: &mut Vec<u8>,
        line: &mut Vec<u8>,
    ) -> Result<Self::Sheet, NoMemory>
        requires book { HasTakenUpLawful Self.StandsFor self.now }
        requires certificate { certificate.old.items ≡ [] }
        requires line { line.old.items ≡ [] }
        ensures { AnswersOpeningOf Self.Sheet.rules Self.Sheet.StandsAt Self.StandsFor self.now
            certificate.new.items line.new.items result };
}
