// Standard input and standard output as a source and a sink: what the runtime's reader has left and its writer was given.
ghost use Rattle.std.specs.Prelude.{None, ◌≡◌, ◌≤◌, ◌<◌, length, take, drop, IfOk, OnOk, OnErr};
ghost use Rattle.std.specs.Io.KnownBytes.{Consumes, IsAtEnd, Keeps, Appends};
ghost use Rattle.hk_base.specs.Devices.{Rose, IfBytes, OnEnd, OnNothing, OnFailed, OnNoFailure};

use crate::interrupted::{read_on, write_on};
use hk_base::{Failed, Got, Sink, Source};
use std::io::{Read, Write};

// How many bytes are asked of the reader at once.
const PIECE_SIZE: usize = 4096;

/// A reader of the runtime as a source, with a count of the reads that failed. It reads into a buffer of its own, so that a
/// caller's buffer changes only where bytes were read.
#[derive(Drop)]
pub struct StdSource<B: Read + Drop> {
    reader: B,
    buffer: [u8; 4096],
    faults: u64,
}

impl<B: Read + Drop> StdSource<B> {
    /// No read has failed yet.
    pub fn new(reader: B) -> StdSource<B>
        ensures { result.faults ≡ 0 }
    {
        StdSource {
            reader,
            buffer: [0; PIECE_SIZE],
            faults: 0,
        }
    }

    /// How many reads have failed.
    pub fn faults(&self) -> u64
        ensures { result ≡ self.now.faults }
    {
        self.faults
    }
}

impl<B: Read + Drop> Source for StdSource<B> {
    ghost left = { λ s. None };

    ghost faults = { λ s. s.faults };

    fn read(&mut self, into: &mut [u8]) -> Got
        requires { 0 < length into.old }
        ensures some { IfBytes result (λ n. 1 ≤ n) }
        ensures room { IfBytes result (λ n. n ≤ length into.old) }
        ensures cause { OnFailed result (Rose self.old.faults self.new.faults) }
        ensures counts_failures { OnNoFailure result (self.new.faults ≡ self.old.faults) }
        ensures rest_stays { IfBytes result (λ n. drop n into.new ≡ drop n into.old) }
        ensures nothing_put { OnNothing result (into.new ≡ into.old) }

        // What the reader has left loses the bytes that were read.
        ensures bytes { IfBytes result (λ n. Consumes (B.remaining self.old.reader) (B.remaining self.new.reader) (take n into.new)) }
        ensures at_end { OnEnd result (IsAtEnd (B.remaining self.new.reader)) }
        ensures failed_keeps { OnFailed result (Keeps (B.remaining self.old.reader) (B.remaining self.new.reader)) }
    {
        let room = into.len().min(PIECE_SIZE);
        let piece = &mut self.buffer[..];
        match read_on(&mut self.reader, &mut piece[..room]) {
            Ok(0) => Got::End,
            Ok(count) => {
                into[..count].copy_from_slice(&piece[..count]);
                Got::Bytes(count)
            }
            Err(_) => {
                self.faults = self.faults.saturating_add(1);
                Got::Failed
            }
        }
    }
}

/// A writer of the runtime as a sink, with a count of the writes that failed. A write that takes nothing has failed.
#[derive(Drop)]
pub struct StdSink<P: Write + Drop> {
    printer: P,
    faults: u64,
}

impl<P: Write + Drop> StdSink<P> {
    /// No write has failed yet.
    pub fn new(printer: P) -> StdSink<P>
        ensures { result.faults ≡ 0 }
    {
        StdSink { printer, faults: 0 }
    }

    /// How many writes have failed.
    pub fn faults(&self) -> u64
        ensures { result ≡ self.now.faults }
    {
        self.faults
    }
}

impl<P: Write + Drop> Sink for StdSink<P> {
    ghost written = { λ s. None };

    ghost faults = { λ s. s.faults };

    fn write(&mut self, piece: &[u8]) -> Result<usize, Failed>
        requires { 0 < length piece.now }
        ensures some { IfOk result (λ n. 1 ≤ n) }
        ensures all { IfOk result (λ n. n ≤ length piece.now) }
        ensures cause { OnErr result (Rose self.old.faults self.new.faults) }
        ensures counts_failures { OnOk result (self.new.faults ≡ self.old.faults) }

        // What the writer has been given grows by the bytes that were taken.
        ensures bytes { IfOk result (λ n. Appends (P.contents self.old.printer) (P.contents self.new.printer) (take n piece.now)) }
        ensures failed_keeps { OnErr result (Keeps (P.contents self.old.printer) (P.contents self.new.printer)) }
    {
        match write_on(&mut self.printer, piece) {
            Ok(count) if count > 0 => Ok(count),
            _ => {
                self.faults = self.faults.saturating_add(1);
                Err(Failed)
            }
        }
    }
}
