//! The words of an answer to a certificate line.

ghost use Rattle.std.specs.Prelude.{◌≡◌, ◌++◌, OnOk};
ghost use Rattle.vx_clock.specs.Clock.{clock_text};
ghost use Rattle.vx_cli.specs.CheckRuns.{stated_text, test_word, yes_words};

use std::alloc::Global;
use vx_cert::{CertBody, Certificate};
use vx_clock::write_clock;
use vx_drivers::text::{push_number, push_text};
use vx_num::{NoMemory, write_decimal};

/// Appends a minute of the day, as `hh:mm`.
pub(crate) fn push_clock(words: &mut Vec<u8>, time: u16) -> Result<(), NoMemory>
    ensures { OnOk result (words.new.items ≡ words.old.items ++ clock_text time) }
{
    words.extend_from_slice(&write_clock(time))?;
    Ok(())
}

/// Appends what a certificate states, in points: the level of kind `k0`, or a figure.
fn push_stated(alloc: Global, words: &mut Vec<u8>, body: &CertBody) -> Result<(), NoMemory>
    ensures { OnOk result (words.new.items ≡ words.old.items ++ stated_text body.now) }
{
    match body {
        CertBody::K0 { k0, .. } => write_decimal(alloc, words, u128::from(*k0), 3),
        CertBody::Single { figure, .. }
        | CertBody::Index { figure, .. }
        | CertBody::Soq { figure, .. } => write_decimal(alloc, words, u128::from(figure.cents), 2),
    }
}

/// Appends what a yes says of its certificate.
pub(crate) fn push_yes(
    alloc: Global,
    words: &mut Vec<u8>,
    certificate: &Certificate,
) -> Result<(), NoMemory>
    ensures { OnOk result (words.new.items ≡ words.old.items ++ yes_words certificate.now) }
{
    push_clock(words, certificate.time)?;
    push_text(words, ",")?;
    push_stated(alloc, words, &certificate.body)
}

/// Appends the word for the first test that fails, by its number.
pub(crate) fn push_test(alloc: Global, words: &mut Vec<u8>, test: u32) -> Result<(), NoMemory>
    ensures { OnOk result (words.new.items ≡ words.old.items ++ test_word test) }
{
    push_text(words, "A")?;
    push_number(alloc, words, u64::from(test))
}
