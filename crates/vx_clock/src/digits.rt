//! Whole numbers in a fixed count of decimal digits, as dates, times and symbols write them.

ghost use Rattle.std.specs.Prelude.{◌≡◌, ◌≤◌, ◌<◌, ◌+◌, ◌/◌, ◌%◌, ◌^◌, length, IfSome};
ghost use Rattle.vx_clock.specs.Digits.{number_of};

/// The number that the bytes write in decimal digits, or `None` where a byte is no digit.
///
/// At most nine digits, so that the number fits. No byte gives 0.
pub fn number(text: &[u8]) -> Option<u32>
    requires { length text.now ≤ 9 }
    ensures value { result ≡ number_of text.now }
    ensures bound { IfSome result (λ n. n < 10 ^ length text.now) }
{
    let mut value = 0;
    for byte in text {
        if !byte.is_ascii_digit() {
            return None;
        }
        value = 10 * value + u32::from(*byte - b'0');
    }
    Some(value)
}

/// The byte of the digit that a value has at a unit: at 1 its last digit, at 10 the one before.
pub fn digit(value: u32, unit: u32) -> u8
    requires { 0 < unit }
    ensures { result ≡ 48 + value / unit % 10 }
{
    b'0' + (value / unit % 10) as u8
}
