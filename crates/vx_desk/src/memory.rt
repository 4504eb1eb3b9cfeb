//! A desk over files in memory, at which chosen calls fail.

ghost use Rattle.std.specs.Prelude.{◌≡◌, ℕ, ◌≤◌, ◌<◌, ◌+◌, ◌-◌, ◌⊎◌, ◌↔◌, [], List, length, min, string_bytes, vec_capacity};
ghost use Rattle.std.specs.Prelude.{Option, Some, None, false, Contains, IsTrue, IsErr, IsNone, IfOk, OnOk, OnErr, is_ok, MatchOption};
ghost use Rattle.vx_desk.specs.declared.memory.MemFile.{MemFile};
ghost use Rattle.vx_desk.specs.Slots.{IsReadingSlot, IsWritingSlot};
ghost use Rattle.vx_desk.specs.Memory.{ChangesOnlyFile, held, opens_to_read, opens_to_write, reads_from, writes_to, buffer_after};
ghost use Rattle.vx_desk.specs.Told.{Told, Rose, Opens, Reads, Writes, ChangesOnly, OnlyOutIsOpen};
ghost use Rattle.vx_desk.specs.Failures.{raised, no_failures};
ghost use Rattle.vx_desk.specs.MemFiles.{file_at, bytes_of_file, place_of, files_of, IsFileAt, IsPlace};
ghost use Rattle.vx_desk.specs.MemFiles.{seen_source, seen_sink, IsNewSink};

use crate::device::{Desk, Failed, Slot};
use crate::failures::Failures;
use std::alloc::Global;
use std::marker::Model;
use vx_num::NoMemory;

/// A file of a desk in memory.
#[derive(Debug, Drop)]
struct MemFile {
    name: String,
    bytes: Vec<u8>,
}

/// The bytes of the file at a place, none where there is no file.
fn bytes_at(files: &[MemFile], place: Option<usize>) -> &[u8]
    ensures { result.now ≡ bytes_of_file (file_at files.now place) }
{
    match place {
        None => &[],
        Some(at) => match files.get(at) {
            None => &[],
            Some(file) => file.bytes.as_slice(),
        },
    }
}

/// The first place of a name among the files.
fn first_place(files: &[MemFile], name: &str) -> Option<usize>
    ensures { result ≡ place_of files.now name.now }
{
    files.iter().position(|file| file.name.as_str() == name)
}

/// The place of the file with a name.
fn find_file(files: &[MemFile], name: &str) -> Option<usize>
    ensures { MatchOption result (held (files_of files.now) name.now ≡ None) (IsFileAt files.now name.now) }
{
    first_place(files, name)
}

fn make_file(alloc: Global, name: &str, bytes: &[u8]) -> Result<MemFile, NoMemory>
    ensures { IfOk result (λ file. (string_bytes file.name ≡ name.now) × (file.bytes.items ≡ bytes.now)) }
{
    Ok(MemFile {
        name: String::from_str(alloc, name)?,
        bytes: Vec::from_slice(alloc, bytes)?,
    })
}

/// Puts a file in the place of the one with its name, or behind the others.
fn put_file(files: &mut Vec<MemFile>, file: MemFile) -> Result<(), NoMemory>
    ensures added { OnOk result (held (files_of files.new.items) (string_bytes file.name) ≡ Some file.bytes.items) }
    ensures others { OnOk result (ChangesOnlyFile (string_bytes file.name)
        (files_of files.old.items) (files_of files.new.items)) }
    ensures unchanged { OnErr result (files.new.items ≡ files.old.items) }
    ensures places { (place : Option ℕ) → IsPlace files.old.items place → IsPlace files.new.items place }
{
    match find_file(files, file.name.as_str()) {
        Some(place) => files[place] = file,
        None => files.push(file)?,
    }
    Ok(())
}

/// Numbers a call, and says whether it is one of those that fail.
fn count_call(calls: &mut u64, fails: &[u64]) -> bool
    ensures counted { calls.new ≡ raised calls.old }
    ensures fails { IsTrue result ↔ Contains fails.now (raised calls.old) }
{
    *calls = calls.saturating_add(1);
    fails.contains(calls)
}

/// A slot that is read: a file, and how many of its bytes were read.
#[derive(Debug, Drop)]
struct Source {
    file: Option<usize>,
    read: usize,
    failures: Failures,
}

impl Source {
    fn new() -> Source
        ensures { result ≡ record { file = None; read = 0; failures = no_failures } }
    {
        Source {
            file: None,
            read: 0,
            failures: Failures::new(),
        }
    }

    /// Opens the file with a name.
    fn open(&mut self, files: &[MemFile], name: &str, fails: bool) -> Result<(), Failed>
        requires { IsPlace files.now self.old.file }
        ensures place { IsPlace files.now self.new.file }
        ensures fails { IsErr result ↔ (IsTrue fails ⊎ IsNone (held (files_of files.now) name.now)) }
        ensures state { seen_source files.now self.new ≡ opens_to_read name.now (held (files_of files.now) name.now)
            (is_ok result) (seen_source files.now self.old) }
        ensures rose { OnErr result (Rose self.old.failures.opens self.new.failures.opens) }
    {
        if fails {
            return Err(self.failures.count_open());
        }
        let Some(place) = find_file(files, name) else {
            return Err(self.failures.count_open());
        };
        self.file = Some(place);
        self.read = 0;
        Ok(())
    }

    /// Reads the next bytes of the file, at most `most` of them.
    fn read(
        &mut self,
        files: &[MemFile],
        most: usize,
        fails: bool,
        buf: &mut [u8],
    ) -> Result<usize, Failed>
        ensures fails { IsErr result ↔ IsTrue fails }
        ensures count { IfOk result (λ n.
            n ≡ min most (min (length buf.old) (length (seen_source files.now self.old).left))) }
        ensures buffer { buf.new ≡ buffer_after (seen_source files.now self.old).left buf.old result }
        ensures state { seen_source files.now self.new ≡ reads_from result (seen_source files.now self.old) }
        ensures rose { OnErr result (Rose self.old.failures.reads self.new.failures.reads) }
        ensures file { self.new.file ≡ self.old.file }
    {
        if fails {
            return Err(self.failures.count_read());
        }
        let bytes = bytes_at(files, self.file);
        let left = &bytes[self.read.min(bytes.len())..];
        let count = most.min(buf.len().min(left.len()));
        buf[..count].copy_from_slice(&left[..count]);
        self.read += count;
        Ok(count)
    }
}

/// A slot that is written: the file that it was opened with, and what was sent since.
#[derive(Debug, Drop)]
struct Sink {
    file: Option<usize>,
    bytes: Vec<u8>,
    failures: Failures,
}

impl Sink {
    fn new(alloc: Global, room: usize) -> Result<Sink, NoMemory>
        ensures state { IfOk result IsNewSink }
        ensures room { IfOk result (λ sink. room ≤ vec_capacity sink.bytes) }
    {
        Ok(Sink {
            file: None,
            bytes: Vec::with_capacity(alloc, room)?,
            failures: Failures::new(),
        })
    }

    /// Opens the slot with the name of a file and nothing sent.
    fn open(&mut self, files: &[MemFile], name: &str, fails: bool) -> Result<(), Failed>
        requires { IsPlace files.now self.old.file }
        ensures place { IsPlace files.now self.new.file }
        ensures fails { IsErr result ↔ (IsTrue fails ⊎ IsNone (held (files_of files.now) name.now)) }
        ensures state { seen_sink files.now self.new
            ≡ opens_to_write name.now (is_ok result) (seen_sink files.now self.old) }
        ensures rose { OnErr result (Rose self.old.failures.opens self.new.failures.opens) }
        ensures room { vec_capacity self.old.bytes ≤ vec_capacity self.new.bytes }
    {
        if fails {
            return Err(self.failures.count_open());
        }
        let Some(place) = find_file(files, name) else {
            return Err(self.failures.count_open());
        };
        self.file = Some(place);
        self.bytes.clear();
        Ok(())
    }

    /// Takes the first bytes of a piece, at most `most` of them and what there is room for.
    fn write(
        &mut self,
        room: usize,
        most: usize,
        fails: bool,
        bytes: &[u8],
    ) -> Result<usize, Failed>
        requires { room ≤ vec_capacity self.old.bytes }
        ensures fails { IsErr result ↔ (IsTrue fails ⊎ room ≤ length self.old.bytes.items) }
        ensures count { IfOk result (λ n. n ≡ min most (min (length bytes.now) (room - length self.old.bytes.items))) }
        ensures state { (files : List MemFile) → seen_sink files self.new
            ≡ writes_to bytes.now result (seen_sink files self.old) }
        ensures rose { OnErr result (Rose self.old.failures.writes self.new.failures.writes) }
        ensures file { self.new.file ≡ self.old.file }
        ensures room { vec_capacity self.old.bytes ≤ vec_capacity self.new.bytes }
    {
        if fails || self.bytes.len() >= room {
            return Err(self.failures.count_write());
        }
        let count = most.min(bytes.len().min(room - self.bytes.len()));
        self.bytes.extend_from_slice(&bytes[..count]).unwrap();
        Ok(count)
    }
}

/// A desk in memory, over files that are added to it. Its `open`, `read` and `write` calls are
/// numbered together from 1, and those whose numbers it is given fail. Else a call fails only
/// where the name of an `open` was not added, or where a slot that is written is full.
#[derive(Debug, Drop)]
pub struct MemDesk {
    alloc: Global,
    files: Vec<MemFile>,
    room: usize,
    most: usize,
    fails: Vec<u64>,
    calls: u64,
    feed: Source,
    side: Source,
    out: Sink,
    certs: Sink,
}

impl Model for MemDesk {
    ghost use Rattle.std.specs.Prelude.{◌≡◌, ◌≤◌, vec_capacity, None};
    ghost use Rattle.vx_desk.specs.Memory.{Memory};
    ghost use Rattle.vx_desk.specs.MemFiles.{files_of, seen_source, seen_sink, IsPlace};

    ghost Value = { Memory };

    ghost view = { λ d. record {
      room = d.room;
      most = d.most;
      fails = d.fails.items;
      calls = d.calls;
      files = files_of d.files.items;
      feed = seen_source d.files.items d.feed;
      side = seen_source d.files.items d.side;
      out = seen_sink d.files.items d.out;
      certs = seen_sink d.files.items d.certs;
    } };

    ghost invariant = { λ d. (1 ≤ d.most)
        × (d.room ≤ vec_capacity d.out.bytes)
        × (d.room ≤ vec_capacity d.certs.bytes)
        × (d.out.file ≡ None)
        × IsPlace d.files.items d.feed.file
        × IsPlace d.files.items d.side.file
        × IsPlace d.files.items d.certs.file };
}

impl MemDesk {
    ghost use Rattle.vx_desk.specs.Memory.{told_memory, new_memory, sent_to, AddsFile};

    /// A desk with no file, whose output alone is open. Each slot that is written holds `room`
    /// bytes, one call moves at most `most` bytes, and the calls with the numbers `fails` fail.
    pub fn new(alloc: Global, room: usize, most: usize, fails: &[u64]) -> Result<MemDesk, NoMemory>
        requires { 1 ≤ most }
        ensures { IfOk result (λ desk. desk ≡ new_memory room most fails.now) }
    {
        Ok(MemDesk {
            alloc,
            files: Vec::new(alloc),
            room,
            most,
            fails: Vec::from_slice(alloc, fails)?,
            calls: 0,
            feed: Source::new(),
            side: Source::new(),
            out: Sink::new(alloc, room)?,
            certs: Sink::new(alloc, room)?,
        })
    }

    /// Adds a file, in place of one with the same name.
    pub fn add_file(&mut self, name: &str, bytes: &[u8]) -> Result<(), NoMemory>
        requires { OnlyOutIsOpen (told_memory self.old) }
        ensures added { OnOk result (AddsFile self.old self.new name.now bytes.now) }
        ensures unchanged { OnErr result (self.new ≡ self.old) }
    {
        let file = make_file(self.alloc, name, bytes)?;
        put_file(&mut self.files, file)?;
        Ok(())
    }

    /// What was sent to a slot; nothing for one that is read.
    pub fn sent(&self, slot: Slot) -> &[u8]
        ensures { result.now ≡ sent_to self.now slot }
    {
        match slot {
            Slot::Feed | Slot::Side => &[],
            Slot::Out => self.out.bytes.as_slice(),
            Slot::Certs => self.certs.bytes.as_slice(),
        }
    }
}

impl Desk for MemDesk {
    ghost use Rattle.std.specs.Prelude.{refl};
    ghost use Rattle.vx_desk.specs.Memory.{told_memory, held_by, held, next_call, left_in, sent_to};
    ghost use Rattle.vx_desk.specs.Memory.{after_open, after_read, after_write};

    ghost told = { told_memory };

    ghost holds = { held_by };

    ghost out_is_open = { λ d. refl };

    fn open(&mut self, slot: Slot, name: &str) -> Result<(), Failed>
        requires closed { (told_memory self.old slot).is_open ≡ false }
        ensures opens { Opens slot name.now (held_by self.old name.now)
            (told_memory self.old slot) (told_memory self.new slot) result }
        ensures others { ChangesOnly slot (told_memory self.old) (told_memory self.new) }
        ensures names { held_by self.new ≡ held_by self.old }

        // Exactly which opens fail, and what each leaves.
        ensures fails { IsErr result
            ↔ (Contains self.old.fails (next_call self.old) ⊎ IsNone (held_by self.old name.now)) }
        ensures state { self.new ≡ after_open self.old slot name.now (is_ok result) }
    {
        let fails = count_call(&mut self.calls, &self.fails);
        match slot {
            Slot::Feed => self.feed.open(&self.files, name, fails),
            Slot::Side => self.side.open(&self.files, name, fails),
            Slot::Certs => self.certs.open(&self.files, name, fails),
            Slot::Out => unreachable!(),
        }
    }

    fn read(&mut self, slot: Slot, buf: &mut [u8]) -> Result<usize, Failed>
        requires reading { IsReadingSlot slot }
        requires open { IsTrue (told_memory self.old slot).is_open }
        ensures reads { Reads buf.new (told_memory self.old slot) (told_memory self.new slot) result }
        ensures others { ChangesOnly slot (told_memory self.old) (told_memory self.new) }
        ensures names { held_by self.new ≡ held_by self.old }

        // Exactly which reads fail, how many bytes they move, and what each leaves.
        ensures fails { IsErr result ↔ Contains self.old.fails (next_call self.old) }
        ensures count { IfOk result (λ n.
            n ≡ min self.old.most (min (length buf.old) (length (left_in self.old slot)))) }
        ensures buffer { buf.new ≡ buffer_after (left_in self.old slot) buf.old result }
        ensures state { self.new ≡ after_read self.old slot result }
    {
        let fails = count_call(&mut self.calls, &self.fails);
        match slot {
            Slot::Feed => self.feed.read(&self.files, self.most, fails, buf),
            Slot::Side => self.side.read(&self.files, self.most, fails, buf),
            Slot::Out | Slot::Certs => unreachable!(),
        }
    }

    fn write(&mut self, slot: Slot, bytes: &[u8]) -> Result<usize, Failed>
        requires writing { IsWritingSlot slot }
        requires open { IsTrue (told_memory self.old slot).is_open }
        ensures writes { Writes bytes.now (told_memory self.old slot) (told_memory self.new slot) result }
        ensures others { ChangesOnly slot (told_memory self.old) (told_memory self.new) }
        ensures names { held_by self.new ≡ held_by self.old }

        // Exactly which writes fail, how many bytes they take, and what each leaves.
        ensures fails { IsErr result ↔ (Contains self.old.fails (next_call self.old)
            ⊎ self.old.room ≤ length (sent_to self.old slot)) }
        ensures count { IfOk result (λ n.
            n ≡ min self.old.most (min (length bytes.now) (self.old.room - length (sent_to self.old slot)))) }
        ensures state { self.new ≡ after_write self.old slot bytes.now result }
    {
        let fails = count_call(&mut self.calls, &self.fails);
        match slot {
            Slot::Out => self.out.write(self.room, self.most, fails, bytes),
            Slot::Certs => self.certs.write(self.room, self.most, fails, bytes),
            Slot::Feed | Slot::Side => unreachable!(),
        }
    }
}
