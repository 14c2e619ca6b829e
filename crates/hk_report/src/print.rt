// The lines of prints.
ghost use Rattle.std.specs.Prelude.{◌≡◌};
ghost use Rattle.hk_base.specs.Writing.{Writes};
ghost use Rattle.hk_spec_lines.specs.Lines.{print_line};

use crate::gathered::Gathered;
use crate::hexadecimal::digits;
use crate::pieces::write_text;
use hk_base::{Failed, Print, Sink};
use itoa::Buffer;

/// Appends the line of a print: its number, and its word and mask in eight hexadecimal digits each, as one piece. `Failed`
/// leaves a proper front of the line, and the sink's count of faults higher.
pub fn write_print<K: Sink>(sink: &mut K, n: u64, print: &Print) -> Result<(), Failed>
    ensures { Writes K.Sink (print_line n print.now) result sink.old sink.new }
{
    let mut number = Buffer::new();
    let mut line = Gathered::new();
    line.push(number.format(n).as_bytes());
    line.push(b" ");
    line.push(&digits(print.word));
    line.push(b" ");
    line.push(&digits(print.mask));
    line.push(b"\n");
    write_text(sink, line.text())
}
