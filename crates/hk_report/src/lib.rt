//! The printed lines of runs: written into any sink, and report lines read back. The bytes are those of `hk_spec_lines`.
//!
//! Callers see one call for each kind of line. `Ok` means that the whole line was appended, in however many writes the
//! sink took. `Failed` comes only where the sink's count of faults rose, and leaves a proper front of the line.
//! [`read_line`] takes exactly the report lines, and says of any other text where it goes wrong.
//! No writer takes memory, skips a byte or tries a failed write again.
#![tactic(auto)]

mod gathered;
mod head;
mod hexadecimal;
mod line;
mod made;
mod pieces;
mod print;
mod read;
mod reader;
mod reply;
mod summary;
#[cfg(test)]
mod tests;

pub use hk_base::{
    End, Failed, Head, Match, NoMemory, OpEnd, Print, Reason, Reply, Sink, Trouble, What, WireFault,
};
pub use line::write_line;
pub use made::write_made;
pub use print::write_print;
pub use reader::{LineFault, read_line};
pub use reply::write_reply;
pub use summary::{write_mismatch, write_operator, write_station, write_trouble};
