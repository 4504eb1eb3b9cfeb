//! The command `check`: the checker's answers to the lines of a file of certificates.

ghost use Rattle.std.specs.Prelude.{◌≡◌, IsTrue, false};
ghost use Rattle.vx_desk.specs.Told.{OnlyOutIsOpen};
ghost use Rattle.vx_desk.specs.Calls.{Failures, IsStep};
ghost use Rattle.vx_drivers.specs.CertificateExits.{IsCertificateExit};
ghost use Rattle.vx_drivers.specs.Exits.{exit_calls};
ghost use Rattle.vx_cli.specs.Runs.{ChecksFiles, ChecksOpen, IsCheckExit, OpensToCheck};

use crate::complaint::push_field_word;
use crate::words::{push_test, push_yes};
use std::alloc::Global;
use vx_cert::{CertFault, Certificate, read_cert};
use vx_check::{PlainBook, Verdict, check_cert};
use vx_desk::{Desk, Slot};
use vx_drivers::text::push_text;
use vx_drivers::{AnswersCertificates, Exit, TakesEvents, answer_certificates, open_slot};
use vx_feed::Event;
use vx_num::NoMemory;

/// The checker's book, which takes up the events of a feed.
#[derive(Drop)]
struct FeedBook {
    book: PlainBook,
}

impl TakesEvents for FeedBook {
    ghost use Rattle.vx_check.specs.StandsFor.{PlainStandsFor};

    ghost StandsFor = { λ taker events. PlainStandsFor taker.book events };

    fn take(&mut self, event: Event) -> Result<(), NoMemory> {
        self.book.push(event)
    }
}

/// Answers certificates by the checker.
#[derive(Drop)]
struct Checker {
    alloc: Global,
}

impl AnswersCertificates for Checker {
    ghost use Rattle.vx_cli.specs.CheckLaws.{certificate_judges_one, line_reads_one};
    ghost use Rattle.vx_cli.specs.CheckRuns.{check_rules};

    type Book = FeedBook;

    type Certificate = Certificate;

    ghost rules = { check_rules };

    fn read(&self, line: &[u8], word: &mut Vec<u8>) -> Result<Option<Certificate>, NoMemory> {
        match read_cert(self.alloc, line) {
            Ok(certificate) => Ok(Some(certificate)),
            Err(CertFault::Syntax) => {
                push_text(word, "syntax")?;
                Ok(None)
            }
            Err(CertFault::Field(field)) => {
                push_field_word(self.alloc, word, field)?;
                Ok(None)
            }
            Err(CertFault::NoMemory) => Err(NoMemory),
        }
    }

    fn line_named(&self, certificate: &Certificate) -> u64 {
        certificate.line
    }

    fn judge(
        &self,
        taker: &FeedBook,
        certificate: &Certificate,
        words: &mut Vec<u8>,
    ) -> Result<bool, NoMemory> {
        match check_cert(&taker.book, certificate) {
            Verdict::Yes => {
                push_yes(self.alloc, words, certificate)?;
                Ok(true)
            }
            Verdict::No(test) => {
                push_test(self.alloc, words, test)?;
                Ok(false)
            }
        }
    }

    ghost reads_one = { line_reads_one };

    ghost judges_one = { certificate_judges_one };
}

/// Answers each line of the certificates over the feed, with both of them open.
fn check_open<D: Desk>(alloc: Global, desk: &mut D) -> Exit
    requires feed { IsTrue (D.told desk.old Slot.Feed).is_open }
    requires side { IsTrue (D.told desk.old Slot.Side).is_open }
    requires out { IsTrue (D.told desk.old Slot.Out).is_open }
    ensures ends { ChecksOpen (D.told desk.old) (D.told desk.new) result }
    ensures exits { IsCertificateExit result }
    ensures step { IsStep (exit_calls result) (D.told desk.old) (D.told desk.new) }
{
    match PlainBook::new(alloc) {
        Ok(book) => answer_certificates(alloc, &Checker { alloc }, FeedBook { book }, desk),
        Err(NoMemory) => Exit::NoMemory,
    }
}

/// Answers each line of a file of certificates over a feed, and opens both for it.
pub(crate) fn check_files<D: Desk>(alloc: Global, desk: &mut D, feed: &str, certs: &str) -> Exit
    requires closed { OnlyOutIsOpen (D.told desk.old) }
    ensures sends { ChecksFiles feed.now certs.now (D.holds desk.old) (D.told desk.old) (D.told desk.new) result }
    ensures exits { IsCheckExit result }
    ensures failures { Failures (exit_calls result) (D.told desk.old) (D.told desk.new) }
    ensures opens { OpensToCheck feed.now certs.now (D.told desk.new) result }
{
    match open_slot(desk, Slot::Feed, feed) {
        Ok(()) => {}
        Err(exit) => return exit,
    }
    match open_slot(desk, Slot::Side, certs) {
        Ok(()) => {}
        Err(exit) => return exit,
    }
    check_open(alloc, desk)
}
