//! A desk over real files and the standard output.

ghost use Rattle.std.specs.Prelude.{◌≡◌, ◌≤◌, ℕ, List, true, false, length, is_some, None, IfOk};
ghost use Rattle.vx_desk.specs.Told.{Opens, Reads, Writes};
ghost use Rattle.vx_desk.specs.Failures.{no_failures};
ghost use Rattle.vx_desk.specs.Untold.{fresh_untold, untold};
ghost use Rattle.vx_desk.specs.Devices.{told_device};
ghost use Rattle.vx_desk.specs.declared.device.Slot.{Slot};

use crate::device::{Desk, Failed, Slot};
use crate::failures::Failures;
use std::io::{Read, Write};
use std::marker::Model;
use std::rt::Files;
use std::{fs, io};

/// One slot over a file.
#[derive(Drop)]
struct Device<F> {
    file: Option<F>,
    failures: Failures,
}

impl<F: Drop> Device<F> {
    fn new() -> Device<F>
        ensures closed { is_some result.file ≡ false }
        ensures failures { result.failures ≡ no_failures }
    {
        Device {
            file: None,
            failures: Failures::new(),
        }
    }

    /// Keeps a file that was opened, or counts the failure.
    fn keep(&mut self, opened: io::Result<F>) -> Result<(), Failed>
        requires { is_some self.old.file ≡ false }
        ensures { (slot : Slot) (name : List ℕ)
            → Opens slot name None (told_device self.old) (told_device self.new) result }
    {
        match opened {
            Ok(file) => {
                self.file = Some(file);
                Ok(())
            }
            Err(_) => Err(self.failures.count_open()),
        }
    }
}

impl<F: Read + Drop> Device<F> {
    fn read(&mut self, buf: &mut [u8]) -> Result<usize, Failed>
        requires { is_some self.old.file ≡ true }
        ensures { Reads buf.new (untold true self.old.failures) (told_device self.new) result }
    {
        let Some(file) = &mut self.file else {
            unreachable!()
        };
        match file.read(buf) {
            Ok(count) => Ok(count),
            Err(_) => Err(self.failures.count_read()),
        }
    }
}

impl<F: Write + Drop> Device<F> {
    fn write(&mut self, bytes: &[u8]) -> Result<usize, Failed>
        requires { is_some self.old.file ≡ true }
        ensures { Writes bytes.now (untold true self.old.failures) (told_device self.new) result }
    {
        let Some(file) = &mut self.file else {
            unreachable!()
        };
        count_write(file.write(bytes), &mut self.failures)
    }
}

/// A desk over the files and the standard output of a runtime. It tells nothing of its content.
#[derive(Drop)]
pub struct RealDesk<R: Files + Print + Drop> {
    rt: R,
    feed: Device<R::File>,
    side: Device<R::File>,
    certs: Device<R::File>,
    out: Failures,
}

impl<R: Files + Print + Drop> Model for RealDesk<R> {
    ghost use Rattle.std.specs.Prelude.{is_some};
    ghost use Rattle.vx_desk.specs.Untold.{UntoldDesk};

    ghost Value = { UntoldDesk R };

    ghost view = { λ d. record {
      runtime = d.rt;
      feed_is_open = is_some d.feed.file;
      side_is_open = is_some d.side.file;
      certs_is_open = is_some d.certs.file;
      feed = d.feed.failures;
      side = d.side.failures;
      out = d.out;
      certs = d.certs.failures;
    } };
}

impl<R: Files + Print + Drop> RealDesk<R> {
    /// A desk with the output alone open.
    pub fn new(rt: R) -> RealDesk<R>
        ensures { result ≡ fresh_untold rt }
    {
        RealDesk {
            rt,
            feed: Device::new(),
            side: Device::new(),
            certs: Device::new(),
            out: Failures::new(),
        }
    }

    /// Closes what was opened, and gives the runtime back.
    pub fn finish(self) -> R
        ensures { result ≡ self.runtime }
    {
        let RealDesk { rt, .. } = self;
        rt
    }
}

/// What a write came to; one that took no byte is a failure too.
fn count_write(outcome: io::Result<usize>, failures: &mut Failures) -> Result<usize, Failed>
    ensures { (bytes : List ℕ) → IfOk outcome (λ n. n ≤ length bytes)
        → Writes bytes (untold true failures.old) (untold true failures.new) result }
{
    match outcome {
        Ok(0) | Err(_) => Err(failures.count_write()),
        Ok(count) => Ok(count),
    }
}

impl<R: Files + Print + Drop> Desk for RealDesk<R> {
    ghost use Rattle.vx_desk.specs.Untold.{untold_slots, untold_holds};
    ghost use Rattle.std.specs.Prelude.{refl};

    ghost told = { untold_slots };

    ghost holds = { λ d. untold_holds };

    ghost out_is_open = { λ d. refl };

    fn open(&mut self, slot: Slot, name: &str) -> Result<(), Failed> {
        match slot {
            Slot::Feed => self.feed.keep(fs::open(&self.rt, name)),
            Slot::Side => self.side.keep(fs::open(&self.rt, name)),
            Slot::Certs => self.certs.keep(fs::create(&self.rt, name)),
            Slot::Out => unreachable!(),
        }
    }

    fn read(&mut self, slot: Slot, buf: &mut [u8]) -> Result<usize, Failed> {
        match slot {
            Slot::Feed => self.feed.read(buf),
            Slot::Side => self.side.read(buf),
            Slot::Out | Slot::Certs => unreachable!(),
        }
    }

    fn write(&mut self, slot: Slot, bytes: &[u8]) -> Result<usize, Failed> {
        match slot {
            Slot::Certs => self.certs.write(bytes),
            Slot::Out => count_write(self.rt.write_some(bytes), &mut self.out),
            Slot::Feed | Slot::Side => unreachable!(),
        }
    }
}
