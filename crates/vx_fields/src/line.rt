//! Which lines can be split.

ghost use Rattle.std.specs.Prelude.{◌≡◌, ◌≤◌, None, length, take, true};
ghost use Rattle.std.specs.List.{list_all};
ghost use Rattle.vx_fields.specs.Lines.{is_plain, is_plain_line, lines_in, may_follow, plain_head, text_of, why_unsplit};

use vx_lines::LF;

/// Why a line can't be split into fields.
#[derive(Clone, Copy, Debug, PartialEq, Eq)]
pub enum Unsplit {
    /// It is empty.
    Empty,
    /// A byte of it is outside 0x20 to 0x7E, or a double quote.
    Byte,
}

// Whether a byte is printable and no double quote.
fn is_plain(byte: u8) -> bool
    ensures { result ≡ is_plain byte }
{
    byte >= 0x20 && byte <= 0x7E && byte != b'"'
}

// Whether each byte is plain. No byte ends the loop early, so that many are tested at a time.
fn are_plain(bytes: &[u8]) -> bool
    ensures { result ≡ list_all is_plain bytes.now }
{
    let mut are_all = true;
    for byte in bytes {
        are_all &= is_plain(*byte);
    }
    are_all
}

/// Whether a line can be split here: it is not empty, and each of its bytes is one of 0x20 to 0x7E
/// and no double quote.
pub fn is_plain_line(line: &[u8]) -> bool
    ensures { result ≡ is_plain_line line.now }
{
    !line.is_empty() && are_plain(line)
}

/// Why a line can't be split, the first cause that holds; `None` where it can be.
pub fn why_unsplit(line: &[u8]) -> Option<Unsplit>
    ensures cause { result ≡ why_unsplit line.now }
    ensures plain { result ≡ None → is_plain_line line.now ≡ true }
{
    if line.is_empty() {
        Some(Unsplit::Empty)
    } else if are_plain(line) {
        None
    } else {
        Some(Unsplit::Byte)
    }
}

// Whether a byte may stand in lines that can be split, by whether the one before it ends a line.
fn may_follow(byte: u8, after_lf: bool) -> bool
    ensures { result ≡ may_follow after_lf byte }
{
    if byte == LF {
        !after_lf
    } else {
        is_plain(byte)
    }
}

// Whether each line of a text can be split. No byte ends the loop early, so that many are tested at a time.
fn are_plain_lines(text: &[u8]) -> bool
    requires whole { text.now ≡ text_of (lines_in text.now) }
    ensures { result ≡ list_all is_plain_line (lines_in text.now) }
{
    let mut are_all = true;
    let mut after_lf = true;
    for byte in text {
        are_all &= may_follow(*byte, after_lf);
        after_lf = *byte == LF;
    }
    are_all
}

// Where the leading lines end that can be split.
fn plain_end(text: &[u8]) -> usize
    requires whole { text.now ≡ text_of (lines_in text.now) }
    ensures within { result ≤ length text.now }
    ensures head { take result text.now ≡ text_of (plain_head (lines_in text.now)) }
{
    let mut end = 0;
    let mut after_lf = true;
    for at in 0..text.len() {
        let byte = text[at];
        if !may_follow(byte, after_lf) {
            return end;
        }
        after_lf = byte == LF;
        if after_lf {
            end = at + 1;
        }
    }
    end
}

/// Of a text of whole lines, each with its LF, the leading lines that can be split: all, or those before the first
/// that is empty or has a byte that is not plain.
pub fn plain_lines(text: &[u8]) -> &[u8]
    requires whole { text.now ≡ text_of (lines_in text.now) }
    ensures head { result.now ≡ text_of (plain_head (lines_in text.now)) }
    ensures begins { result.now ≡ take (length result.now) text.now }
{
    if are_plain_lines(text) {
        return text;
    }
    &text[..plain_end(text)]
}
