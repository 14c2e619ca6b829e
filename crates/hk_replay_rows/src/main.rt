//! Worked examples over the whole top call of the replay: the bytes of an input, and the status and the text that it gives.
//!
//! The examples are data and not code: the files in `data/` name each row, its streams, and what is wanted. The texts were written
//! by hand, and the digests of sound come from scripts in `tools/`. The program plays each row and prints its name, or what
//! came in place of what is wanted. Nothing is proved here but that it is safe to run and ends.
#![tactic(auto)]

mod fault;
mod items;
mod play;
mod row;
mod samples;
mod words;

use crate::fault::Fault;
use std::alloc::Global;
use std::{fs, io};

// The files with the rows.
const FILES: [&str; 10] = [
    "replays.rows",
    "operators.rows",
    "stations.rows",
    "fences.rows",
    "sounds.rows",
    "prints.rows",
    "troubles.rows",
    "words.rows",
    "make.rows",
    "devices.rows",
];

fn main(rt: HostRuntime) -> io::Result<()> {
    for file in FILES {
        let text = fs::read_to_string(&rt, file)?;
        match played(rt.alloc(), text.as_str()) {
            Ok(lines) => print!(rt; "{lines}")?,
            Err(Fault::NoMemory) => println!(rt; "{file}: no memory")?,
            Err(Fault::Form) => println!(rt; "{file}: a line that is no row's")?,
        }
    }
    Ok(())
}

// A line for each row of the text, and what came where that isn't as wanted.
fn played(alloc: Global, text: &str) -> Result<String, Fault> {
    let mut lines = String::new(alloc);
    for row in row::rows(alloc, text)? {
        match play::other_than_wanted(alloc, &row)? {
            None => lines.push_str(format!(in alloc; "{}\n", row.name)?.as_str())?,
            Some(other) => lines.push_str(format!(in alloc; "{}: {other}\n", row.name)?.as_str())?,
        }
    }
    Ok(lines)
}
