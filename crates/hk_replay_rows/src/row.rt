// The rows of a text: names, settings, and what is wanted.
use crate::fault::Fault;
use std::alloc::Global;

/// A row: its name, the numbers for which it is played, its settings, and the status and the lines that are wanted.
#[derive(Drop)]
pub struct Row<'a> {
    pub name: &'a str,
    pub first: u32,
    pub end: u32,
    pub settings: Vec<&'a str>,
    pub status: Option<u8>,
    pub lines: Vec<&'a str>,
}

impl<'a> Row<'a> {
    fn new(alloc: Global, name: &'a str) -> Row<'a> {
        Row {
            name,
            first: 0,
            end: 1,
            settings: Vec::new(alloc),
            status: None,
            lines: Vec::new(alloc),
        }
    }

    // Takes the row's next line: those behind its status are the text that is wanted.
    fn take(&mut self, line: &'a str) -> Result<(), Fault> {
        if self.status.is_some() {
            self.lines.push(line)?;
        } else if let Some(status) = line.strip_prefix("status ") {
            self.status = Some(status.parse::<u8>()?);
        } else if let Some(numbers) = line.strip_prefix("each ") {
            let (first, end) = numbers.split_once("..").ok_or(Fault::Form)?;
            self.first = first.parse::<u32>()?;
            self.end = end.parse::<u32>()?;
        } else {
            self.settings.push(line)?;
        }
        Ok(())
    }
}

/// The rows of a text, in order. Empty lines and those that begin with `#` say nothing.
pub fn rows<'a>(alloc: Global, text: &'a str) -> Result<Vec<Row<'a>>, Fault> {
    let mut all = Vec::new(alloc);
    for line in text.lines() {
        if line.is_empty() || line.starts_with("#") {
            continue;
        }
        if let Some(name) = line.strip_prefix("row ") {
            all.push(Row::new(alloc, name))?;
        } else {
            let row: &mut Row<'a> = all.as_mut_slice().last_mut().ok_or(Fault::Form)?;
            row.take(line)?;
        }
    }
    Ok(all)
}
