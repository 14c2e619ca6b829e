// One run of the top call over objects in memory, for each number of a row.
use crate::fault::Fault;
use crate::items::{bytes_of, push_counted};
use crate::row::Row;
use crate::samples::digest;
use hk_base::{MemorySink, MemorySource};
use hk_replay::replay_top;
use std::alloc::Global;

// Room for the text of any row.
const MOST_TEXT: u32 = 1048576;

/// What a run is given: its words and input, the most bytes that a record holds, how the input is read, which reads and writes
/// fail, how many bytes the output has room for, and the digest of the text where it isn't written out.
#[derive(Drop)]
struct Run {
    words: Vec<String>,
    input: Vec<u8>,
    most: usize,
    read_size: Option<usize>,
    failing_reads: Vec<u64>,
    failing_writes: Vec<u64>,
    room: Option<u32>,
    digest: Option<u64>,
}

/// What the row's first run gave that isn't as wanted.
pub fn other_than_wanted(alloc: Global, row: &Row<'_>) -> Result<Option<String>, Fault> {
    for n in row.first..row.end {
        let number = format!(in alloc; "{n}")?;
        let mut run = Run::new(alloc)?;
        for setting in row.settings.iter() {
            run.set(
                alloc,
                setting.replace(alloc, "{}", number.as_str())?.as_str(),
            )?;
        }
        let mut want = String::new(alloc);
        for line in row.lines.iter() {
            want.push_str(line.replace(alloc, "{}", number.as_str())?.as_str())?;
            want.push('\n')?;
        }
        let other = run.other_than(alloc, row.status, want.as_str())?;
        if let Some(other) = other {
            return Ok(Some(format!(in alloc; "with {n}, {other}")?));
        }
    }
    Ok(None)
}

impl Run {
    fn new(alloc: Global) -> Result<Run, Fault> {
        let mut words = Vec::new(alloc);
        words.push("replay".to_string(alloc)?)?;
        Ok(Run {
            words,
            input: Vec::new(alloc),
            most: 65535,
            read_size: None,
            failing_reads: Vec::new(alloc),
            failing_writes: Vec::new(alloc),
            room: None,
            digest: None,
        })
    }

    // Takes one of a row's settings. `data/README` names them.
    fn set(&mut self, alloc: Global, setting: &str) -> Result<(), Fault> {
        let (name, value) = setting.split_once(" ").unwrap_or((setting, ""));
        match name.as_bytes() {
            b"words" => self.words = words_in(alloc, value)?,
            b"records" => self.most = value.parse::<usize>()?,
            b"reads" => self.read_size = Some(value.parse::<usize>()?),
            b"failing-read" => self.failing_reads.push(value.parse::<u64>()?)?,
            b"failing-write" => self.failing_writes.push(value.parse::<u64>()?)?,
            b"room" => self.room = Some(value.parse::<u32>()?),
            b"digest" => self.digest = Some(value.parse::<u64>()?),
            b"input" => {
                let bytes = bytes_of(alloc, value)?;
                self.input.extend_from_slice(bytes.as_slice())?;
            }
            b"operator" => self.add_records(b"O", bytes_of(alloc, value)?.as_slice())?,
            b"station" => {
                let (number, items) = value.split_once(" ").unwrap_or((value, ""));
                let head = [b'S', number.parse::<u8>()?];
                self.add_records(&head, bytes_of(alloc, items)?.as_slice())?;
            }
            b"turns" => self.take_turns(alloc, value)?,
            _ => return Err(Fault::Form),
        }
        Ok(())
    }

    // Records that begin so, with these bytes; no bytes are one record.
    fn add_records(&mut self, head: &[u8], bytes: &[u8]) -> Result<(), Fault> {
        if bytes.is_empty() {
            self.input.extend_from_slice(head)?;
            return push_counted(&mut self.input, bytes);
        }
        for piece in bytes.chunks(self.most.max(1)) {
            self.input.extend_from_slice(head)?;
            push_counted(&mut self.input, piece)?;
        }
        Ok(())
    }

    // `turns 64 94 ITEMS`: 64 stations send the items' bytes in pieces of 94, rising in the first round, falling in the next.
    fn take_turns(&mut self, alloc: Global, value: &str) -> Result<(), Fault> {
        let (count, rest) = value.split_once(" ").ok_or(Fault::Form)?;
        let (size, items) = rest.split_once(" ").ok_or(Fault::Form)?;
        let count = count.parse::<u8>()?;
        let size = size.parse::<usize>()?;
        let bytes = bytes_of(alloc, items)?;
        for (round, piece) in bytes.as_slice().chunks(size.max(1)).enumerate() {
            for n in 0..count {
                let number = if round % 2 == 0 { n } else { count - 1 - n };
                self.add_records(&[b'S', number], piece)?;
            }
        }
        Ok(())
    }

    // What the run gives, where it is another status or another text than these. A text with a digest begins with the one given, and
    // an output with little room has the front of it that fits.
    fn other_than(
        self,
        alloc: Global,
        status: Option<u8>,
        want: &str,
    ) -> Result<Option<String>, Fault> {
        let mut cuts = Vec::new(alloc);
        if let Some(size) = self.read_size {
            for _ in 0..self.input.len() / size.max(1) + 2 {
                cuts.push(size)?;
            }
        }
        let mut source = MemorySource::new(self.input, cuts, self.failing_reads);
        let (room, want) = match self.room {
            Some(room) => (room, &want.as_bytes()[..want.len().min(room as usize)]),
            None => (MOST_TEXT, want.as_bytes()),
        };
        let Ok(mut sink) = MemorySink::new(alloc, room, self.failing_writes) else {
            return Err(Fault::NoMemory);
        };
        let code = replay_top(alloc, &self.words, &mut source, &mut sink).code;
        let text = sink.written();
        let is_wanted = match self.digest {
            Some(wanted) => text.starts_with(want) && digest(text) == wanted,
            None => text == want,
        };
        if is_wanted && status == Some(code) {
            return Ok(None);
        }
        let text = String::from_utf8_lossy(alloc, text)?;
        Ok(Some(format!(in alloc; "status {code}:\n{}", text.as_str())?))
    }
}

// The words of a command line; `""` is a word of no letter.
fn words_in(alloc: Global, line: &str) -> Result<Vec<String>, Fault> {
    let mut words = Vec::new(alloc);
    for word in line.split_whitespace() {
        words.push(if word == "\"\"" { "" } else { word }.to_string(alloc)?)?;
    }
    Ok(words)
}
