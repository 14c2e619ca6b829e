// Reads and writes that go on where a signal interrupted them.
ghost use Rattle.std.specs.Io.{ReadsAtMost, WritesAtMost};
ghost use Rattle.std.specs.Io.KnownBytes.{ReadConsumes, WriteAppends};

use std::io;
use std::io::{ErrorKind, Read, Write};

// How many signals in a row a call takes.
const MOST_SIGNALS: u32 = u32::MAX;

/// Reads once, and again where a signal came first.
pub fn read_on<B: Read>(reader: &mut B, into: &mut [u8]) -> io::Result<usize>
    ensures bound { ReadsAtMost result into.new }
    ensures bytes { ReadConsumes (B.remaining reader.old) (B.remaining reader.new) result into.new }
{
    for _ in 0..MOST_SIGNALS {
        match reader.read(into) {
            Err(e) if e.kind() == ErrorKind::Interrupted => {}
            done => return done,
        }
    }
    reader.read(into)
}

/// Writes once, and again where a signal came first.
pub fn write_on<P: Write>(writer: &mut P, piece: &[u8]) -> io::Result<usize>
    ensures bound { WritesAtMost result piece.now }
    ensures bytes { WriteAppends (P.contents writer.old) (P.contents writer.new) result piece.now }
{
    for _ in 0..MOST_SIGNALS {
        match writer.write(piece) {
            Err(e) if e.kind() == ErrorKind::Interrupted => {}
            done => return done,
        }
    }
    writer.write(piece)
}
