//! Bytes, digits and slices in front of what has been written.

ghost use Rattle.std.specs.Prelude.{◌≡◌, ◌+◌, ◌-◌, ◌<◌, ◌≤◌, ◌∷◌, ◌++◌, drop, length};
ghost use Rattle.vx_num.specs.Written.{digit_byte};

/// Puts a byte in front of what stands from `end` on, and answers its place.
#[inline(always)]
pub fn put<const ROOM: usize>(bytes: &mut [u8; ROOM], end: usize, byte: u8) -> usize
    requires room { 1 ≤ end }
    requires within { end ≤ ROOM }
    ensures start { result ≡ end - 1 }
    ensures written { drop result bytes.new ≡ byte ∷ drop end bytes.old }
{
    let start = end - 1;
    bytes[start] = byte;
    start
}

/// Puts a digit, from 0 to 9, in front of what stands from `end` on, and answers its place.
#[inline(always)]
pub fn put_digit<const ROOM: usize>(bytes: &mut [u8; ROOM], end: usize, digit: u8) -> usize
    requires room { 1 ≤ end }
    requires within { end ≤ ROOM }
    requires digit { digit < 10 }
    ensures start { result ≡ end - 1 }
    ensures written { drop result bytes.new ≡ digit_byte digit ∷ drop end bytes.old }
{
    put(bytes, end, b'0' + digit)
}

/// Puts a text in front of what stands from `end` on, and answers its place.
#[inline(always)]
pub fn put_all<const ROOM: usize>(bytes: &mut [u8; ROOM], end: usize, text: &[u8]) -> usize
    requires room { length text.now ≤ end }
    requires within { end ≤ ROOM }
    ensures start { result ≡ end - length text.now }
    ensures written { drop result bytes.new ≡ text.now ++ drop end bytes.old }
{
    let start = end - text.len();
    let all = &mut bytes[..];
    all[start..end].copy_from_slice(text);
    start
}

/// What has been written: all that stands from `start` to the room's end.
#[inline(always)]
pub fn written<const ROOM: usize>(bytes: &[u8; ROOM], start: usize) -> &[u8]
    requires { start ≤ ROOM }
    ensures { result.now ≡ drop start bytes.now }
{
    let all = &bytes[..];
    &all[start..]
}
