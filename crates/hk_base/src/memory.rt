// A source and a sink in memory, that fail where they are told to.
ghost use Rattle.std.specs.Prelude.{◌≡◌, ◌≤◌, ◌<◌, ◌+◌, ◌-◌, ◌^◌, ◌↔◌, ℕ, min, max, Some, None, Option, [], drop, take, length, IfOk, IsErr, OnOk, OnErr, IsTrue, false, vec_len, vec_capacity};
ghost use Rattle.std.specs.Option.{option_map_or};
ghost use Rattle.hk_base.specs.Devices.{Rose, IfBytes, OnEnd, OnNothing, OnFailed, OnNoFailure, Took, IsNothing, Wrote};

use crate::{Failed, Flag, Got, NoMemory, Sink, Source};
use std::alloc::Global;

/// Bytes in memory as a source. It tells what is left of them.
#[derive(Drop)]
pub struct MemorySource {
    bytes: Vec<u8>,
    at: usize,
    cuts: Vec<usize>,
    failing: Vec<u64>,
    reads: u64,
    faults: u64,
    ghost inside: { at ≤ vec_len bytes },
}

impl MemorySource {
    ghost use Rattle.hk_base.specs.Memory.{IsNewSource};

    /// Gives these bytes: at most `cuts[i]` at read number i, and at least 1, and as many as fit where `cuts` has no
    /// place i. A read whose number stands in `failing` fails, and the next one goes on. Reads are numbered from 0.
    pub fn new(bytes: Vec<u8>, cuts: Vec<usize>, failing: Vec<u64>) -> MemorySource
        ensures { IsNewSource bytes.items cuts.items failing.items result }
    {
        MemorySource {
            bytes,
            at: 0,
            cuts,
            failing,
            reads: 0,
            faults: 0,
        }
    }
}

// How many of the bytes that are left a read gives.
fn piece_len(left: usize, room: usize, cut: Option<usize>) -> usize
    ensures { result ≡ min (min (option_map_or (max 1) cut room) left) room }
{
    let most = match cut {
        Some(cut) => cut.max(1),
        None => room,
    };
    most.min(left).min(room)
}

impl Source for MemorySource {
    ghost use Rattle.hk_base.specs.Memory.{bytes_left, read_fails, bytes_given, SameReading};

    ghost left = { λ m. Some (bytes_left m) };

    ghost faults = { λ m. m.faults };

    fn read(&mut self, into: &mut [u8]) -> Got
        requires { 0 < length into.old }
        ensures some { IfBytes result (λ n. 1 ≤ n) }
        ensures room { IfBytes result (λ n. n ≤ length into.old) }
        ensures next { IfBytes result (λ n. Took (take n into.new) (Some (bytes_left self.old)) (Some (bytes_left self.new))) }
        ensures rest_stays { IfBytes result (λ n. drop n into.new ≡ drop n into.old) }

        ensures end { OnEnd result (IsNothing (Some (bytes_left self.old))) }
        ensures nothing_taken { OnNothing result (bytes_left self.new ≡ bytes_left self.old) }
        ensures nothing_put { OnNothing result (into.new ≡ into.old) }

        ensures cause { OnFailed result (Rose self.old.faults self.new.faults) }
        ensures counts_failures { OnNoFailure result (self.new.faults ≡ self.old.faults) }

        // Which reads fail, and how many bytes the others give.
        ensures fails { OnFailed result (IsTrue (read_fails self.old)) }
        ensures gives { OnNoFailure result (read_fails self.old ≡ false) }
        ensures count { IfBytes result (λ n. n ≡ bytes_given self.old (length into.old)) }
        ensures same { SameReading self.old self.new }
    {
        let number = self.reads;
        self.reads = number.saturating_add(1);
        if self.failing.as_slice().contains(&number) {
            self.faults = self.faults.saturating_add(1);
            return Got::Failed;
        }
        let left = self.bytes.len() - self.at;
        if left == 0 {
            return Got::End;
        }
        let cut = if number < self.cuts.len() as u64 {
            Some(self.cuts[number as usize])
        } else {
            None
        };
        let n = piece_len(left, into.len(), cut);
        let at = self.at;
        into[..n].copy_from_slice(&self.bytes[at..at + n]);
        self.at = at + n;
        Got::Bytes(n)
    }
}

// A flag that a sink raises once this text stands in it.
#[derive(Drop)]
struct Alarm {
    flag: Flag,
    text: Vec<u8>,
}

impl Alarm {
    // Raises the flag where the text stands in what was written.
    fn hear(&self, written: &[u8]) {
        let len = self.text.len();
        if len == 0
            || written
                .windows(len)
                .any(|bytes| bytes == self.text.as_slice())
        {
            self.flag.raise();
        }
    }
}

/// Room in memory as a sink. It tells what was written.
#[derive(Drop)]
pub struct MemorySink {
    bytes: Vec<u8>,
    room: u32,
    failing: Vec<u64>,
    alarm: Option<Alarm>,
    writes: u64,
    faults: u64,
    ghost within: { vec_len bytes ≤ room },
    ghost reserved: { room ≤ vec_capacity bytes },
}

impl MemorySink {
    ghost use Rattle.hk_base.specs.Memory.{bytes_written, IsNewSink};

    /// Takes room for `room` bytes. A write appends as much as fits, and fails exactly where no room is left or its
    /// number, from 0, stands in `failing`.
    pub fn new(alloc: Global, room: u32, failing: Vec<u64>) -> Result<MemorySink, NoMemory>
        ensures { IfOk result (IsNewSink room failing.items) }
    {
        let bytes = match Vec::with_capacity(alloc, room as usize) {
            Ok(bytes) => bytes,
            Err(_) => return Err(NoMemory),
        };
        Ok(MemorySink {
            bytes,
            room,
            failing,
            alarm: None,
            writes: 0,
            faults: 0,
        })
    }

    /// Such a sink that raises `flag` once what was written contains `text`: at once where the text is empty.
    pub fn raising(
        alloc: Global,
        room: u32,
        failing: Vec<u64>,
        flag: Flag,
        text: Vec<u8>,
    ) -> Result<MemorySink, NoMemory>
        ensures { IfOk result (IsNewSink room failing.items) }
    {
        let alarm = Alarm { flag, text };
        alarm.hear(&[]);
        let mut sink = MemorySink::new(alloc, room, failing)?;
        sink.alarm = Some(alarm);
        Ok(sink)
    }

    /// All that was written.
    pub fn written(&self) -> &[u8]
        ensures { result.now ≡ bytes_written self.now }
    {
        self.bytes.as_slice()
    }
}

impl Sink for MemorySink {
    ghost use Rattle.hk_base.specs.Memory.{bytes_written, write_fails, bytes_taken, SameWriting};

    ghost written = { λ m. Some (bytes_written m) };

    ghost faults = { λ m. m.faults };

    fn write(&mut self, piece: &[u8]) -> Result<usize, Failed>
        requires { 0 < length piece.now }
        ensures some { IfOk result (λ n. 1 ≤ n) }
        ensures all { IfOk result (λ n. n ≤ length piece.now) }
        ensures appended { IfOk result (λ n. Wrote (take n piece.now) (Some (bytes_written self.old)) (Some (bytes_written self.new))) }

        ensures failed_stays { OnErr result (bytes_written self.new ≡ bytes_written self.old) }
        ensures cause { OnErr result (Rose self.old.faults self.new.faults) }
        ensures counts_failures { OnOk result (self.new.faults ≡ self.old.faults) }

        // Which writes fail, and how many bytes the others take.
        ensures fails { IsErr result ↔ IsTrue (write_fails self.old) }
        ensures count { IfOk result (λ n. n ≡ bytes_taken self.old (length piece.now)) }
        ensures same { SameWriting self.old self.new }
    {
        let number = self.writes;
        self.writes = number.saturating_add(1);
        let free = self.room as usize - self.bytes.len();
        if self.failing.as_slice().contains(&number) || free == 0 {
            self.faults = self.faults.saturating_add(1);
            return Err(Failed);
        }
        let n = free.min(piece.len());
        match self.bytes.extend_from_slice(&piece[..n]) {
            Ok(()) => {
                if let Some(alarm) = &self.alarm {
                    alarm.hear(self.bytes.as_slice());
                }
                Ok(n)
            }
            Err(_) => unreachable!(),
        }
    }
}
