//! A feed's text in memory as a desk, so that it is read as any feed is.

ghost use Rattle.std.specs.Prelude.{◌≡◌, ◌≤◌, ◌<◌, ◌++◌, [], List, ℕ, None, length, refl, take};
ghost use Rattle.vx_cli.specs.TextDesk.{told_text};

use vx_desk::{Desk, Failed, Slot};

/// A feed's text as a desk: Feed gives the text, Side gives nothing, and what is written is not kept. Feed,
/// Side and Out are open from the start, no read or write fails, and nothing more can be opened.
#[derive(Drop)]
pub(crate) struct TextDesk<'a> {
    left: &'a [u8],
}

impl<'a> TextDesk<'a> {
    /// A desk of which nothing was read.
    pub(crate) fn new(text: &'a [u8]) -> TextDesk<'a>
        ensures { result.left.now ≡ text.now }
    {
        TextDesk { left: text }
    }

    /// Reads the next bytes of the text.
    fn take(&mut self, buf: &mut [u8]) -> usize
        ensures within { result ≤ length buf.old }
        ensures moved { self.old.left.now ≡ take result buf.new ++ self.new.left.now }
        ensures progress { result ≡ 0 → 0 < length buf.old → self.old.left.now ≡ [] }
    {
        let count = buf.len().min(self.left.len());
        let (now, later) = self.left.split_at(count);
        buf[..count].copy_from_slice(now);
        self.left = later;
        count
    }
}

impl<'a> Desk for TextDesk<'a> {
    ghost told = { λ desk. told_text desk.left.now };

    ghost holds = { λ desk name. None };

    ghost out_is_open = { λ desk. refl };

    fn open(&mut self, _slot: Slot, _name: &str) -> Result<(), Failed> {
        Err(Failed)
    }

    fn read(&mut self, slot: Slot, buf: &mut [u8]) -> Result<usize, Failed> {
        match slot {
            Slot::Feed => Ok(self.take(buf)),
            Slot::Side | Slot::Out | Slot::Certs => Ok(0),
        }
    }

    fn write(&mut self, _slot: Slot, bytes: &[u8]) -> Result<usize, Failed> {
        Ok(bytes.len())
    }
}
