//! The way by certificates: for each line of a file of certificates the feed is read up to the line that it
//! names and an answer is sent; then the feed is read to its end, and the last line is sent.

ghost use Rattle.std.specs.Prelude.{◌≡◌, ◌+◌, ◌≤◌, [], IsTrue, None};
ghost use Rattle.vx_desk.specs.Calls.{IsStep};
ghost use Rattle.vx_drivers.specs.CertificateSteps as steps;
ghost use Rattle.vx_drivers.specs.CertificateSteps.{EndsCertificates};
ghost use Rattle.vx_drivers.specs.CertificateExits.{IsCertificateExit};
ghost use Rattle.vx_drivers.specs.Exits.{exit_calls};

use crate::certificates::AnswersCertificates;
use crate::devices::send_line;
use crate::exit::{Exit, LineCause};
use crate::limits::{CERT_LINE_LEN_MAX, CERT_LINES_MAX};
use crate::output::{write_answer, write_end};
use crate::text::push_text;
use std::alloc::Global;
use vx_desk::{Desk, Line, LineReader, ReadFault, Slot};
use vx_num::NoMemory;
use vx_reading::{FeedReader, TakesEvents};

/// A run between two lines of the certificates.
#[derive(Drop)]
pub(crate) struct CheckRun<B: Drop> {
    feed: FeedReader<B>,
    /// The last feed line that a readable certificate named.
    reached: u64,
    /// How many lines got a yes, and how many a no.
    yes: u64,
    no: u64,
    /// The words of the answer at hand, and its line.
    words: Vec<u8>,
    line: Vec<u8>,
}

/// The certificate line after so many is bad.
fn bad_line(count: u64, cause: LineCause) -> Exit
    requires { count ≤ CERT_LINES_MAX }
    ensures { result ≡ Exit.BadCerts (count + 1) cause }
{
    Exit::BadCerts {
        line: count + 1,
        cause,
    }
}

/// The exit of a run that read and sent all, by how many lines got a no.
fn said_exit(count: u64) -> Exit
    ensures exit { result ≡ steps.said_exit count }
    ensures calls { exit_calls result ≡ None }
    ensures exits { IsCertificateExit result }
{
    if count == 0 {
        return Exit::Done;
    }
    Exit::SaidNo { count }
}

impl<B: TakesEvents> CheckRun<B> {
    ghost use Rattle.std.specs.Prelude.{◌≡◌, ◌<◌, ◌+◌, ◌≤◌, [], IsTrue, OnOk, IfErr, IfOk};
    ghost use Rattle.vx_desk.specs.Told.{ChangesOnly};
    ghost use Rattle.vx_desk.specs.Coming.{IsReader};
    ghost use Rattle.vx_desk.specs.Calls.{IsStep};
    ghost use Rattle.vx_reading.specs.FeedReading.{StaysRead};
    ghost use Rattle.vx_drivers.specs.Answers.{answer_of, one_no, one_yes};
    ghost use Rattle.vx_drivers.specs.CertificateExits.{IsCertificateExit};
    ghost use Rattle.vx_drivers.specs.CertificateSteps.{AnswersNextLine, ComesOfLine, EndsRun, GoesOneOn, GoesToEnd};
    ghost use Rattle.vx_drivers.specs.CertificateSteps.{IsBetweenLines, IsNew, MayEnd, MayGoOn, answered_lines, next_line};
    ghost use Rattle.vx_drivers.specs.Exits.{calls_in, exit_calls};

    /// A run that has read nothing.
    fn new(alloc: Global, book: B) -> Result<CheckRun<B>, NoMemory>
        requires { B.StandsFor book [] }
        ensures { IfOk result (IsNew B.StandsFor) }
    {
        Ok(CheckRun {
            feed: FeedReader::new(alloc, book)?,
            reached: 0,
            yes: 0,
            no: 0,
            words: Vec::new(alloc),
            line: Vec::new(alloc),
        })
    }

    /// The answer to a line, whether it is yes; its words are then in hand. It reads the feed up to the
    /// line that the certificate names.
    fn answer<C: AnswersCertificates<Book = B>, D: Desk>(
        &mut self,
        checker: &C,
        desk: &mut D,
        line: &[u8],
    ) -> Result<bool, Exit>
        requires between { IsBetweenLines B.StandsFor self.old (D.told desk.old) }
        requires open { IsTrue (D.told desk.old Slot.Feed).is_open }
        ensures comes { ComesOfLine C.rules B.StandsFor line.now
            self.old (D.told desk.old) self.new (D.told desk.new) result }
        ensures kept { (self.new.yes ≡ self.old.yes) × (self.new.no ≡ self.old.no) }
        ensures exits { IfErr result IsCertificateExit }
        ensures stays_read { StaysRead self.old.feed (D.told desk.old) (D.told desk.new) }
        ensures step { IsStep (calls_in result) (D.told desk.old) (D.told desk.new) }
        ensures others { ChangesOnly Slot.Feed (D.told desk.old) (D.told desk.new) }
    {
        self.words.clear();
        let certificate = match checker.read(line, &mut self.words) {
            Ok(Some(certificate)) => certificate,
            Ok(None) => return Ok(false),
            Err(NoMemory) => return Err(Exit::NoMemory),
        };
        let named = checker.line_named(&certificate);
        self.words.clear();
        if named < self.reached {
            return match push_text(&mut self.words, "order") {
                Ok(()) => Ok(false),
                Err(NoMemory) => Err(Exit::NoMemory),
            };
        }
        self.reached = named;
        match self.feed.read_to(desk, named) {
            Ok(()) => {}
            Err(stop) => return Err(Exit::from(stop)),
        }
        match checker.judge(self.feed.taker(), &certificate, &mut self.words) {
            Ok(yes) => Ok(yes),
            Err(NoMemory) => Err(Exit::NoMemory),
        }
    }

    /// Counts an answer whose words are in hand, and writes its line.
    fn write(&mut self, alloc: Global, yes: bool) -> Result<(), NoMemory>
        requires few { answered_lines self.old < CERT_LINES_MAX }
        ensures line { OnOk result (self.new.line.items ≡ next_line self.old yes) }
        ensures yes { self.new.yes ≡ self.old.yes + one_yes (answer_of yes self.old.words.items) }
        ensures no { self.new.no ≡ self.old.no + one_no (answer_of yes self.old.words.items) }
        ensures kept { (self.new.feed ≡ self.old.feed) × (self.new.reached ≡ self.old.reached) }
    {
        let number = self.yes + self.no + 1;
        if yes {
            self.yes += 1;
        } else {
            self.no += 1;
        }
        write_answer(alloc, &mut self.line, number, yes, self.words.as_slice())
    }

    /// Answers one more line on the output.
    fn answer_line<C: AnswersCertificates<Book = B>, D: Desk>(
        &mut self,
        alloc: Global,
        checker: &C,
        desk: &mut D,
        line: &[u8],
    ) -> Result<(), Exit>
        requires between { IsBetweenLines B.StandsFor self.old (D.told desk.old) }
        requires few { answered_lines self.old < CERT_LINES_MAX }
        requires open { IsTrue (D.told desk.old Slot.Feed).is_open }
        requires out { IsTrue (D.told desk.old Slot.Out).is_open }
        ensures answers { AnswersNextLine C.rules B.StandsFor line.now
            self.old (D.told desk.old) self.new (D.told desk.new) result }
        ensures lines { OnOk result (answered_lines self.new ≡ answered_lines self.old + 1) }
        ensures stays_read { StaysRead self.old.feed (D.told desk.old) (D.told desk.new) }
        ensures side { D.told desk.new Slot.Side ≡ D.told desk.old Slot.Side }
        ensures exits { IfErr result IsCertificateExit }
        ensures step { IsStep (calls_in result) (D.told desk.old) (D.told desk.new) }
    {
        let yes = match self.answer(checker, desk, line) {
            Ok(yes) => yes,
            Err(exit) => return Err(exit),
        };
        match self.write(alloc, yes) {
            Ok(()) => {}
            Err(NoMemory) => return Err(Exit::NoMemory),
        }
        send_line(desk, Slot::Out, self.line.as_slice())
    }

    /// Answers the next line, or answers that there is none.
    fn answer_next<C: AnswersCertificates<Book = B>, D: Desk>(
        &mut self,
        alloc: Global,
        checker: &C,
        desk: &mut D,
        certs: &mut LineReader,
    ) -> Result<bool, Exit>
        requires way { MayGoOn C.rules B.StandsFor self.old certs.old (D.told desk.old) }
        requires reader { IsReader Slot.Side CERT_LINE_LEN_MAX certs.old }
        requires few { answered_lines self.old ≤ CERT_LINES_MAX }
        requires feed { IsTrue (D.told desk.old Slot.Feed).is_open }
        requires side { IsTrue (D.told desk.old Slot.Side).is_open }
        requires out { IsTrue (D.told desk.old Slot.Out).is_open }
        ensures goes { GoesOneOn C.rules B.StandsFor self.old certs.old (D.told desk.old)
            self.new certs.new (D.told desk.new) result }
        ensures reader { OnOk result (IsReader Slot.Side CERT_LINE_LEN_MAX certs.new) }
        ensures lines { IfOk result (λ more. IsTrue more → answered_lines self.new ≡ answered_lines self.old + 1) }
        ensures few { OnOk result (answered_lines self.new ≤ CERT_LINES_MAX) }
        ensures exits { IfErr result IsCertificateExit }
        ensures step { IsStep (calls_in result) (D.told desk.old) (D.told desk.new) }
    {
        let line = match certs.next(desk) {
            Ok(Some(line)) => line,
            Ok(None) => return Ok(false),
            Err(ReadFault::LineTooLong { .. }) => {
                return Err(bad_line(self.yes + self.no, LineCause::TooLong));
            }
            Err(ReadFault::NoEol { .. }) => {
                return Err(bad_line(self.yes + self.no, LineCause::NoEol));
            }
            Err(ReadFault::Device) => return Err(Exit::ReadFault { slot: Slot::Side }),
        };
        if self.yes + self.no == CERT_LINES_MAX {
            return Err(bad_line(self.yes + self.no, LineCause::TooMany));
        }
        match self.answer_line(alloc, checker, desk, certs.bytes(&line)) {
            Ok(()) => Ok(true),
            Err(exit) => Err(exit),
        }
    }

    /// Answers each line.
    fn answer_all<C: AnswersCertificates<Book = B>, D: Desk>(
        &mut self,
        alloc: Global,
        checker: &C,
        desk: &mut D,
        certs: &mut LineReader,
    ) -> Result<(), Exit>
        requires way { MayGoOn C.rules B.StandsFor self.old certs.old (D.told desk.old) }
        requires reader { IsReader Slot.Side CERT_LINE_LEN_MAX certs.old }
        requires few { answered_lines self.old ≤ CERT_LINES_MAX }
        requires feed { IsTrue (D.told desk.old Slot.Feed).is_open }
        requires side { IsTrue (D.told desk.old Slot.Side).is_open }
        requires out { IsTrue (D.told desk.old Slot.Out).is_open }
        ensures all { GoesToEnd C.rules B.StandsFor
            self.old certs.old (D.told desk.old) self.new (D.told desk.new) result }
        ensures few { OnOk result (answered_lines self.new ≤ CERT_LINES_MAX) }
        ensures exits { IfErr result IsCertificateExit }
        ensures step { IsStep (calls_in result) (D.told desk.old) (D.told desk.new) }
    {
        'lines: loop {
            match self.answer_next(alloc, checker, desk, certs) {
                Ok(true) => {}
                Ok(false) => return Ok(()),
                Err(exit) => return Err(exit),
            }
        }
    }

    /// Reads the rest of the feed and sends the last line.
    fn finish<C: AnswersCertificates<Book = B>, D: Desk>(
        &mut self,
        alloc: Global,
        _checker: &C,
        desk: &mut D,
    ) -> Exit
        requires way { MayEnd C.rules B.StandsFor self.old (D.told desk.old) }
        requires few { answered_lines self.old ≤ CERT_LINES_MAX }
        requires feed { IsTrue (D.told desk.old Slot.Feed).is_open }
        requires out { IsTrue (D.told desk.old Slot.Out).is_open }
        ensures ends { EndsRun C.rules B.StandsFor self.old (D.told desk.old) (D.told desk.new) result }
        ensures exits { IsCertificateExit result }
        ensures step { IsStep (exit_calls result) (D.told desk.old) (D.told desk.new) }
    {
        match self.feed.read_to_end(desk) {
            Ok(()) => {}
            Err(stop) => return Exit::from(stop),
        }
        match write_end(alloc, &mut self.line, self.yes + self.no, self.yes, self.no) {
            Ok(()) => {}
            Err(NoMemory) => return Exit::NoMemory,
        }
        match send_line(desk, Slot::Out, self.line.as_slice()) {
            Ok(()) => said_exit(self.no),
            Err(exit) => exit,
        }
    }
}

/// Answers each line of a file of certificates over a feed, both of them open.
pub fn answer_certificates<C: AnswersCertificates, D: Desk>(
    alloc: Global,
    checker: &C,
    book: C::Book,
    desk: &mut D,
) -> Exit
    requires book { C.Book.StandsFor book [] }
    requires feed { IsTrue (D.told desk.old Slot.Feed).is_open }
    requires side { IsTrue (D.told desk.old Slot.Side).is_open }
    requires out { IsTrue (D.told desk.old Slot.Out).is_open }
    ensures ends { EndsCertificates C.rules (D.told desk.old) (D.told desk.new) result }
    ensures exits { IsCertificateExit result }
    ensures step { IsStep (exit_calls result) (D.told desk.old) (D.told desk.new) }
{
    let mut certs = match LineReader::new(alloc, Slot::Side, CERT_LINE_LEN_MAX) {
        Ok(certs) => certs,
        Err(NoMemory) => return Exit::NoMemory,
    };
    let mut run = match CheckRun::new(alloc, book) {
        Ok(run) => run,
        Err(NoMemory) => return Exit::NoMemory,
    };
    match run.answer_all(alloc, checker, desk, &mut certs) {
        Ok(()) => run.finish(alloc, checker, desk),
        Err(exit) => exit,
    }
}
