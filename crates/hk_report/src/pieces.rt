// Lines are written in pieces: texts and numbers.
ghost use Rattle.hk_base.specs.Writing.{Writes};
ghost use Rattle.hk_report.specs.Pieces.{piece_text, pieces_text, texts};

use hk_base::{Failed, Sink};
use itoa::Buffer;

// A piece of a line. Where it has a word and numbers, a space stands before each number.
#[derive(Clone, Copy)]
pub enum Piece<'a> {
    Text(&'a [u8]),
    Number(u64),
    Numbered(&'a [u8], u64),
    NumberedTwice(&'a [u8], u64, u64),
}

// Writes the text, by as many writes as the sink needs.
pub fn write_text<K: Sink>(sink: &mut K, text: &[u8]) -> Result<(), Failed>
    ensures { Writes K.Sink text.now result sink.old sink.new }
{
    let mut done = 0;
    while done < text.len() {
        match sink.write(&text[done..]) {
            Ok(n) => done += n,
            Err(failed) => return Err(failed),
        }
    }
    Ok(())
}

fn write_texts<K: Sink>(sink: &mut K, parts: &[&[u8]]) -> Result<(), Failed>
    ensures { Writes K.Sink (texts parts.now) result sink.old sink.new }
{
    for part in parts {
        match write_text(sink, part) {
            Ok(()) => {}
            Err(failed) => return Err(failed),
        }
    }
    Ok(())
}

fn write_piece<K: Sink>(sink: &mut K, piece: &Piece<'_>) -> Result<(), Failed>
    ensures { Writes K.Sink (piece_text piece.now) result sink.old sink.new }
{
    let (mut first, mut second) = (Buffer::new(), Buffer::new());
    match piece {
        Piece::Text(text) => write_text(sink, text),
        Piece::Number(n) => write_text(sink, first.format(*n).as_bytes()),
        Piece::Numbered(word, n) => {
            write_texts(sink, &[*word, b" ", first.format(*n).as_bytes()])
        }
        Piece::NumberedTwice(word, m, n) => write_texts(
            sink,
            &[
                *word,
                b" ",
                first.format(*m).as_bytes(),
                b" ",
                second.format(*n).as_bytes(),
            ],
        ),
    }
}

// Writes the pieces, one after another.
pub fn write_pieces<K: Sink>(sink: &mut K, pieces: &[Piece<'_>]) -> Result<(), Failed>
    ensures { Writes K.Sink (pieces_text pieces.now) result sink.old sink.new }
{
    for piece in pieces {
        match write_piece(sink, piece) {
            Ok(()) => {}
            Err(failed) => return Err(failed),
        }
    }
    Ok(())
}
