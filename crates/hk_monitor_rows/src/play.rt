// A run of the top call for each call of a row that fails.
ghost use Rattle.std.specs.Prelude.{◌≡◌, IfOk, OnOk};
ghost use Rattle.std.specs.List.{All};
ghost use Rattle.hk_outside.specs.Places.{HasEmpty};
ghost use Rattle.hk_outside.specs.declared.door.Start.TheVariants as starts;

use crate::bytes::{operator_bytes, station_bytes};
use crate::fault::Fault;
use crate::meeting::{Meeting, MeetingDoor};
use crate::row::{Hold, Part, Row, Station};
use crate::texts::Played;
use hk_base::{Flag, MemorySink, MemorySource};
use hk_monitor_top::{Kept, monitor_top};
use hk_outside::{MemoryDoor, MemoryGate, MemoryLink};
use std::alloc::{AllocError, Global};
use std::sync::Wait;
use std::thread::Threads;

// Room for the text of any row.
const MOST_TEXT: u32 = 2_000_000;

// One run of a row: the call with this number is to fail. Version 1 is published, a log has text, and gates that were to meet
// didn't, where the flag is raised.
#[derive(Drop)]
struct Run<'a> {
    alloc: Global,
    row: &'a Row,
    call: u64,
    published: Flag,
    logged: Flag,
    missed: Flag,
}

/// What came of the row's first run that isn't as wanted.
pub fn other_than_wanted<R: Threads + Wait + Clone + Send + Sync + Drop>(
    rt: &R,
    alloc: Global,
    row: &Row,
) -> Result<Option<String>, Fault> {
    for call in 0..row.runs {
        if let Some(other) = Run::new(alloc, row, call)?.other(rt)? {
            return Ok(Some(format!(in alloc; "at call {call}, {other}")?));
        }
    }
    Ok(None)
}

impl<'a> Run<'a> {
    fn new(alloc: Global, row: &'a Row, call: u64) -> Result<Run<'a>, Fault> {
        Ok(Run {
            alloc,
            row,
            call,
            published: Flag::new(alloc)?,
            logged: Flag::new(alloc)?,
            missed: Flag::new(alloc)?,
        })
    }

    // Plays it, and tells what came where that isn't as wanted.
    fn other<R: Threads + Wait + Clone + Send + Sync + Drop>(
        &self,
        rt: &R,
    ) -> Result<Option<String>, Fault> {
        let mut words = Vec::new(self.alloc);
        for word in self.row.words.split_whitespace() {
            words.push(word.to_string(self.alloc)?)?;
        }
        let mut door = self.door()?;
        let mut out = MemorySink::new(self.alloc, MOST_TEXT, self.failing(Part::Output)?)?;
        let mut kept: Option<Kept<R>> = None;
        let status = monitor_top(rt, self.alloc, &words, &mut door, &mut out, &mut kept);
        if let Some(Kept { desk, readings: _ }) = kept {
            desk.close(rt);
        }
        let summary = out.written();
        let replies = text(door.door.replies());
        let log_0 = text(door.door.log(0));
        let log_1 = text(door.door.log(1));
        let played = Played {
            missed: self.missed.is_raised(),
            status: status.code,
            summary,
            replies,
            log_0,
            log_1,
        };
        if played.is_wanted(self.alloc, self.row.wanted)? {
            return Ok(None);
        }
        Ok(Some(played.told(self.alloc)?))
    }

    // The numbers of this part's calls that fail.
    fn failing(&self, part: Part) -> Result<Vec<u64>, AllocError> {
        let mut numbers = Vec::new(self.alloc);
        if self.row.failing == Some(part) {
            numbers.push(self.call)?;
        }
        Ok(numbers)
    }

    // A door with all that the row has.
    fn door(&self) -> Result<MeetingDoor, Fault>
        ensures { IfOk result (λ door. door.door.start ≡ starts.Unstarted) }
    {
        let alloc = self.alloc;
        let mut stations = Vec::new(alloc);
        for (number, station) in self.row.stations.iter().enumerate() {
            self.add_station(&mut stations, number, station)?;
        }
        let calls = MemorySource::new(
            operator_bytes(alloc, self.row.recording)?,
            Vec::new(alloc),
            self.failing(Part::Calls)?,
        );
        let replies = MemorySink::raising(
            alloc,
            MOST_TEXT,
            self.failing(Part::Replies)?,
            self.published.share()?,
            Vec::from_slice(alloc, b"published 1")?,
        )?;
        let mut gates = Vec::new(alloc);
        gates.push(MemoryGate::new(self.failing(Part::Gate)?))?;
        gates.push(MemoryGate::new(Vec::new(alloc)))?;
        let failing = self.failing(Part::Door)?;
        Ok(MeetingDoor {
            door: MemoryDoor::new(alloc, stations, calls, replies, gates, failing)?,
            meetings: self.meetings()?,
        })
    }

    // Adds a station's link, and its empty log.
    fn add_station(
        &self,
        stations: &mut Vec<(MemoryLink, MemorySink)>,
        number: usize,
        station: &Station,
    ) -> Result<(), Fault>
        requires { All HasEmpty stations.old.items }
        ensures { OnOk result (All HasEmpty stations.new.items) }
    {
        let alloc = self.alloc;
        let (reads, writes) = if number == 0 {
            (self.failing(Part::Link)?, self.failing(Part::Log)?)
        } else {
            (Vec::new(alloc), Vec::new(alloc))
        };
        let hold = match station.hold {
            Hold::Nothing => None,
            Hold::Published => Some(self.published.share()?),
            Hold::Logged => Some(self.logged.share()?),
        };
        let bytes = station_bytes(alloc, station)?;
        let link = MemoryLink::new(bytes, Vec::new(alloc), reads, hold);
        let flag = self.logged.share()?;
        let log = MemorySink::raising(
            alloc,
            MOST_TEXT,
            writes,
            flag,
            Vec::from_slice(alloc, b"S")?,
        )?;
        stations.push((link, log))?;
        Ok(())
    }

    // The meeting of two gates, where the row has one.
    fn meetings(&self) -> Result<Vec<Meeting>, Fault> {
        let mut meetings = Vec::new(self.alloc);
        if self.row.gates_meet {
            let one = Flag::new(self.alloc)?;
            let other = Flag::new(self.alloc)?;
            meetings.push(Meeting {
                mine: one.share()?,
                other: other.share()?,
                missed: self.missed.share()?,
            })?;
            meetings.push(Meeting {
                mine: other,
                other: one,
                missed: self.missed.share()?,
            })?;
        }
        Ok(meetings)
    }
}

// What was written, and nothing where that isn't back.
fn text(back: Option<&MemorySink>) -> &[u8] {
    match back {
        Some(sink) => sink.written(),
        None => b"",
    }
}
