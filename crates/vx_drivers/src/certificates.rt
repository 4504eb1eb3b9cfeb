//! What answers the lines of a file of certificates.

ghost use Rattle.std.specs.Prelude.{◌≡◌, ℕ, List, [], IfOk, Ok, Result};
ghost use Rattle.vx_feed.specs.declared.events.Event.{Event};
ghost use Rattle.vx_drivers.specs.Answers.{Answer};
ghost use Rattle.vx_drivers.specs.CertificateRun.{Rules};
ghost use Rattle.vx_drivers.specs.CertificateSteps.{JudgesBy, read_as};
ghost use Rattle.vx_drivers.specs.Sending.{Text};

use vx_num::NoMemory;
use vx_reading::TakesEvents;

/// What answers the lines of a file of certificates: it reads a line, and judges a certificate by what
/// has taken up the feed's events.
pub trait AnswersCertificates: Drop {
    /// What takes up the events.
    type Book: TakesEvents;

    type Certificate: Drop;

    /// What it makes of certificates.
    ghost rules: { Rules Self.Certificate };

    /// Reads a line. Where it is no certificate, `word` is then the word for why.
    fn read(&self, line: &[u8], word: &mut Vec<u8>) -> Result<Option<Self::Certificate>, NoMemory>
        requires { word.old.items ≡ [] }
        ensures { IfOk result (λ found. rules.ReadsAs line.now (read_as found word.new.items)) };

    /// The feed line that a certificate names.
    fn line_named(&self, certificate: &Self::Certificate) -> u64
        ensures { result ≡ rules.named certificate.now };

    /// Whether the answer to a certificate that was read is yes. The events up to the line that it names
    /// were taken up, and `words` is then what the answer's line says: of a yes what follows the line's
    /// number, of a no the word for why.
    fn judge(
        &self,
        book: &Self::Book,
        certificate: &Self::Certificate,
        words: &mut Vec<u8>,
    ) -> Result<bool, NoMemory>
        requires empty { words.old.items ≡ [] }
        requires read { (line : List ℕ) × rules.ReadsAs line (Ok certificate.now) }
        ensures { JudgesBy rules Self.Book.StandsFor book.now certificate.now words.new.items result };

    /// A line is read as one thing at most.
    ghost reads_one: { (line : List ℕ) (a b : Result Self.Certificate Text)
        → rules.ReadsAs line a → rules.ReadsAs line b → a ≡ b };

    /// A certificate has one answer at most.
    ghost judges_one: { (events : List Event) (c : Self.Certificate) (a b : Answer)
        → rules.Judges events c a → rules.Judges events c b → a ≡ b };
}
