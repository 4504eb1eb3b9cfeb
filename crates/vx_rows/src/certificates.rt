//! Certificates of the sample feeds' figures, and certificates made from one text by changes of it.

ghost use Rattle.std.specs.Prelude.{◌≤◌};

use crate::fixtures::{desk_of, joined, run_words};
use std::alloc::Global;
use std::process::Abort;
use std::test::Fail;
use vx_desk::Slot;

// The pieces of a term, in the order of its keys.
const TERM: &str =
    "{\"date\":\"2014-10-17\",\"e\":[\"1152921504606846976\",\"1152921504606846976\"],";

const POWERS: &str =
    "\"exp\":[[\"1152921504606846976\",\"0\",\"0\",\"0\",\"0\",\"0\",\"0\",\"0\",\"0\",\"0\",\"0\",\"0\",\"0\",\"0\"],[\"1152921504606846976\",\"0\",\"0\",\"0\",\"0\",\"0\",\"0\",\"0\",\"0\",\"0\",\"0\",\"0\",\"0\",\"0\"]],";

const FORWARD: &str =
    "\"f\":[\"2305843009213693952000000\",\"2305843009213693952000000\"],\"g\":[\"0\",\"0\"],\"k0\":2000000,";

const MONTH: &str = "\"minutes\":43200,\"pair\":[2000000,0],\"rate\":0,\"root\":\"SPX\",";

const STRIP: &str =
    "\"rows\":[[1900000,200000,4000,\"319368837841231\",\"319368837841232\"],[2000000,200000,20000,\"1441151880758558\",\"1441151880758559\"],[2100000,200000,4000,\"261433447756654\",\"261433447756655\"]],\"s\":[\"2021954166356443\",\"2021954166356446\"],\"w\":[\"4043908332712886\",\"4043908332712892\"]}";

const NEXT_TERM: &str =
    "{\"date\":\"2014-10-24\",\"e\":[\"1152921504606846976\",\"1152921504606846976\"],";

const NEXT_MINUTES: &str = "\"minutes\":53670,\"pair\":[2000000,0],\"rate\":0,\"root\":\"SPXW\",";

const LAST: &str =
    ",\"time\":\"08:30\",\"v\":1,\"x\":[\"49200884714673446\",\"49200884714673520\"]}\n";

/// The certificate of the sample feed's single figure.
pub(crate) const SINGLE: [&str; 7] = [
    "{\"cents\":2066,\"ends\":[\"20657919\",\"20657920\"],\"kind\":\"single\",\"line\":14,\"term\":",
    TERM,
    POWERS,
    FORWARD,
    MONTH,
    STRIP,
    LAST,
];

/// The certificate of the opening figure of the feed with an opening.
pub(crate) const OPENING: [&str; 7] = [
    "{\"cents\":2066,\"ends\":[\"20657919\",\"20657920\"],\"kind\":\"soq\",\"line\":15,\"term\":",
    TERM,
    POWERS,
    FORWARD,
    MONTH,
    STRIP,
    LAST,
];

/// The certificate of the index over the feed of two expiries.
pub(crate) const INDEX: [&str; 13] = [
    "{\"cents\":2066,\"days\":30,\"ends\":[\"20657919\",\"20657920\"],\"kind\":\"index\",\"line\":26,\"near\":",
    TERM,
    POWERS,
    FORWARD,
    MONTH,
    STRIP,
    ",\"next\":",
    NEXT_TERM,
    POWERS,
    FORWARD,
    NEXT_MINUTES,
    STRIP,
    LAST,
];

/// A certificate made from a text by changes, and the line that it gets: in each change the first place
/// of the first text gets the second.
pub(crate) struct Changed {
    pub(crate) changes: &'static [(&'static str, &'static str)],
    pub(crate) out: &'static str,
}

/// The text that the changes make.
fn with_changes(
    rt: &impl Abort,
    alloc: Global,
    text: &str,
    changes: &[(&str, &str)],
) -> Result<String, Fail> {
    let mut made = String::from_str(alloc, text)?;
    for (old, new) in changes {
        assert!(rt; made.contains(*old), "no {}", old);
        made = made.replacen(alloc, *old, *new, 1)?;
    }
    Ok(made)
}

/// What `check` sends for the certificate over the feed.
pub(crate) fn expect_answer(
    rt: &impl Abort,
    alloc: Global,
    feed: &[u8],
    certificate: &[u8],
    out: &str,
) -> Result<(), Fail> {
    let mut desk = desk_of(alloc, 1000, 4096, &[], feed, certificate)?;
    let exit = run_words(alloc, &["check", "feed", "certificates"], &mut desk)?;
    let yes = out.starts_with("YES,");
    assert_eq!(rt; exit.status(), if yes { 0 } else { 1 }, "{}", out);
    let sent = str::from_utf8(desk.sent(Slot::Out))?;
    let end = if yes {
        "\nEND,1,1,0\n"
    } else {
        "\nEND,1,0,1\n"
    };
    assert_eq!(rt; sent.strip_suffix(end), Some(out));
    Ok(())
}

/// Asserts the answers to the certificates that the changes make from the text of the pieces.
pub(crate) fn expect_answers(
    rt: &impl Abort,
    alloc: Global,
    feed: &[&str],
    pieces: &[&str],
    rows: &[Changed],
) -> Result<(), Fail> {
    let feed = joined(alloc, feed)?;
    let text = joined(alloc, pieces)?;
    for row in rows {
        let certificate = with_changes(rt, alloc, str::from_utf8(text.as_slice())?, row.changes)?;
        expect_answer(rt, alloc, feed.as_slice(), certificate.as_bytes(), row.out)?;
    }
    Ok(())
}
