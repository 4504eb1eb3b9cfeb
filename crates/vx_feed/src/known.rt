//! The symbols that were read lately, each beside its text.

ghost use Rattle.std.specs.Prelude.{◌≡◌, IfSome, Ok, Some};
ghost use Rattle.vx_symbol.specs.Symbol.{IsSymbolInRange, symbol_of_text};
ghost use Rattle.vx_feed.specs.Form.{series_of_text};

use crate::limits::{EXPIRIES_MAX, STRIKES_MAX};
use std::alloc::Global;
use std::marker::Model;
use vx_symbol::limits::SYMBOL_LEN;
use vx_symbol::{Symbol, read_symbol};

// As many series as a feed may list, so that a feed of the most series is known whole.
const KNOWN_MAX: usize = 2 * STRIKES_MAX * EXPIRIES_MAX;

// So many symbols in a row that stand elsewhere, as those of trades do, leave the order as it was.
const STRANGERS_MAX: usize = 16;

/// A text, and the symbol that was read of it.
#[derive(Drop)]
struct Known {
    text: [u8; SYMBOL_LEN],
    symbol: Symbol,
}

impl Model for Known {
    ghost use Rattle.std.specs.Prelude.{◌≡◌, Ok};
    ghost use Rattle.vx_symbol.specs.Symbol.{IsSymbolInRange, symbol_of_text};

    ghost Value = { Unit {0} };

    ghost view = { λ k. tt };

    ghost invariant = { λ k. (symbol_of_text k.text ≡ Ok k.symbol) × IsSymbolInRange k.symbol };
}

impl Known {
    // The symbol, if this is its text.
    fn symbol_of(&self, text: &[u8]) -> Option<Symbol>
        ensures value { IfSome result (λ symbol. series_of_text text.now ≡ Some symbol) }
        ensures in_range { IfSome result IsSymbolInRange }
    {
        if text == self.text.as_slice() {
            Some(self.symbol)
        } else {
            None
        }
    }
}

/// The symbols that were read lately, in the order in which they came, each beside its text.
///
/// Feeds quote their series tick after tick in one order: a symbol that comes where it came before is not read again.
/// What is known changes no answer.
#[derive(Drop)]
pub struct KnownSymbols {
    known: Vec<Known>,
    // Where the next one is looked for.
    next: usize,
    // How many came since one stood where it was looked for.
    strangers: usize,
}

impl KnownSymbols {
    /// No symbol is known yet. Takes no memory.
    pub fn new(alloc: Global) -> Self {
        KnownSymbols {
            known: Vec::new(alloc),
            next: 0,
            strangers: 0,
        }
    }

    // From here on the symbols come in their order anew, as behind a tick.
    pub(crate) fn restart(&mut self) {
        self.next = 0;
    }

    // The symbol at a place, if this is its text. The next one is looked for behind it.
    #[inline(always)]
    fn find_at(&mut self, place: usize, text: &[u8]) -> Option<Symbol>
        ensures value { IfSome result (λ symbol. series_of_text text.now ≡ Some symbol) }
        ensures in_range { IfSome result IsSymbolInRange }
    {
        let symbol = self.known.get(place)?.symbol_of(text)?;
        self.next = place + 1;
        self.strangers = 0;
        Some(symbol)
    }

    // Puts a symbol where the next one was looked for, once enough came that stood elsewhere.
    fn replace(&mut self, known: Known) {
        self.strangers = self.strangers.saturating_add(1);
        if self.strangers <= STRANGERS_MAX || self.next >= self.known.len() {
            return;
        }
        self.known[self.next] = known;
        self.next += 1;
    }

    // Keeps a symbol, at the end or in place of another one. Where there is no memory for it, it is not kept.
    fn keep(&mut self, text: [u8; SYMBOL_LEN], symbol: Symbol)
        requires value { symbol_of_text text ≡ Ok symbol }
        requires in_range { IsSymbolInRange symbol }
    {
        let known = Known { text, symbol };
        if self.next < self.known.len() || self.known.len() >= KNOWN_MAX {
            self.replace(known);
        } else if self.known.push(known).is_ok() {
            self.next = self.known.len();
        }
    }

    // Reads a symbol that is not known, and keeps it.
    fn read_anew(&mut self, text: &[u8]) -> Option<Symbol>
        ensures value { result ≡ series_of_text text.now }
        ensures in_range { IfSome result IsSymbolInRange }
    {
        let symbol = read_symbol(text).ok()?;
        if let Ok(text) = text.try_into() {
            self.keep(text, symbol);
        }
        Some(symbol)
    }

    // The series that a symbol of 21 bytes names. It is looked for where the next one should stand, and at the
    // first place, where a new round begins.
    pub(crate) fn read(&mut self, text: &[u8]) -> Option<Symbol>
        ensures value { result ≡ series_of_text text.now }
        ensures in_range { IfSome result IsSymbolInRange }
    {
        if let Some(symbol) = self.find_at(self.next, text) {
            return Some(symbol);
        }
        if let Some(symbol) = self.find_at(0, text) {
            return Some(symbol);
        }
        self.read_anew(text)
    }
}
