//! Worked examples over the whole top call of the monitor, over doors in memory: what stations and the operator send, which call
//! fails, and the status, the summary, the replies and the logs that come.
//!
//! The examples are data and not code, and what is wanted of them was written by hand. The program plays each row and prints its
//! name, and what came where that isn't as wanted. It is proved that the door and its gates are what the top call asks for.
#![tactic(auto)]

mod bytes;
mod fault;
mod fault_rows;
mod meeting;
mod play;
mod row;
mod rows;
mod texts;

use crate::fault::Fault;
use crate::fault_rows::FAULT_ROWS;
use crate::row::Row;
use crate::rows::ROWS;
use std::alloc::Global;
use std::io;
use std::sync::Wait;
use std::thread::Threads;

fn main(rt: HostRuntime) -> io::Result<()> {
    for row in ROWS.into_iter().chain(FAULT_ROWS) {
        match told(&&rt, rt.alloc(), &row) {
            Ok(line) => println!(rt; "{}", line.as_str())?,
            Err(Fault::NoMemory) => println!(rt; "{}: no memory", row.name)?,
        }
    }
    Ok(())
}

// The row's name, and what came where that isn't as wanted.
fn told<R: Threads + Wait + Clone + Send + Sync + Drop>(
    rt: &R,
    alloc: Global,
    row: &Row,
) -> Result<String, Fault> {
    match play::other_than_wanted(rt, alloc, row)? {
        None => Ok(row.name.to_string(alloc)?),
        Some(other) => Ok(format!(in alloc; "{}: {other}", row.name)?),
    }
}
