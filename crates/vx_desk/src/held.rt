//! The whole lines at the front of some bytes, found many at a time.

ghost use Rattle.std.specs.Prelude.{◌≡◌, ◌+◌, ◌≤◌, length, take, drop};
ghost use Rattle.vx_lines.specs.Cut.{HasNoLf};
ghost use Rattle.vx_desk.specs.Held.{IsLinesText};
ghost use Rattle.vx_desk.specs.declared.reader.TheConstants.{LONGEST_LINE};

use crate::lines::LF;
use memchr::memrchr;

/// How many bytes the lines have that end within the first `limit + 1`. So each of them fits the limit, and one
/// search finds where the last of them ends.
fn lines_within(bytes: &[u8], limit: usize) -> usize
    requires { limit ≤ LONGEST_LINE }
    ensures within { result ≤ length bytes.now }
    ensures lines { IsLinesText limit (take result bytes.now) }
    ensures none { result ≡ 0 → HasNoLf (take (limit + 1) bytes.now) }
{
    let window = &bytes[..(limit + 1).min(bytes.len())];
    match memrchr(LF, window) {
        Some(at) => at + 1,
        None => 0,
    }
}

/// How many bytes the whole lines have that come first, up to one that has more than `limit` bytes or is not ended.
pub(crate) fn count_whole(bytes: &[u8], limit: usize) -> usize
    requires { limit ≤ LONGEST_LINE }
    ensures within { result ≤ length bytes.now }
    ensures lines { IsLinesText limit (take result bytes.now) }
    ensures all { HasNoLf (take (limit + 1) (drop result bytes.now)) }
{
    let mut taken = 0;
    'lines: loop {
        let more = lines_within(&bytes[taken..], limit);
        if more == 0 {
            return taken;
        }
        taken += more;
    }
}
