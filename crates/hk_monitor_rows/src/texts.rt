// What came of a run, and whether it is as wanted.
use crate::row::{Outcome, Text};
use std::alloc::{AllocError, Global};

/// What came of a run, and whether a gate waited alone that was to meet the other one.
#[derive(Clone, Copy)]
pub struct Played<'a> {
    pub missed: bool,
    pub status: u8,
    pub summary: &'a [u8],
    pub replies: &'a [u8],
    pub log_0: &'a [u8],
    pub log_1: &'a [u8],
}

impl Played<'_> {
    /// Whether it is one of these.
    pub fn is_wanted(&self, alloc: Global, wanted: &[Outcome]) -> Result<bool, AllocError> {
        for outcome in wanted {
            if self.is(alloc, outcome)? {
                return Ok(true);
            }
        }
        Ok(false)
    }

    fn is(&self, alloc: Global, outcome: &Outcome) -> Result<bool, AllocError> {
        Ok(
            !self.missed
                && self.status == outcome.status
                && self.summary == outcome.summary.as_bytes()
                && self.replies == outcome.replies.as_bytes()
                && is_text(alloc, self.log_0, outcome.log_0)?
                && is_text(alloc, self.log_1, outcome.log_1)?,
        )
    }

    /// All of it as text.
    pub fn told(&self, alloc: Global) -> Result<String, AllocError> {
        let alone = if self.missed {
            ", a gate waited alone"
        } else {
            ""
        };
        let mut text = format!(in alloc; "status {}{alone}\n", self.status)?;
        for part in [self.summary, self.replies, self.log_0, self.log_1] {
            text.push_str(String::from_utf8_lossy(alloc, part)?.as_str())?;
        }
        Ok(text)
    }
}

// Whether these bytes are the text that is wanted.
fn is_text(alloc: Global, bytes: &[u8], wanted: Text) -> Result<bool, AllocError> {
    match wanted {
        Text::Whole(whole) => Ok(bytes == whole.as_bytes()),
        Text::FrontOf(whole) => {
            Ok(bytes.len() < whole.len() && whole.as_bytes().starts_with(bytes))
        }
        Text::EachEighth(lines) => Ok(bytes == each_eighth(alloc, lines)?.as_bytes()),
        Text::AllStarts => Ok(bytes == all_starts(alloc)?.as_bytes()),
    }
}

// Lines of blocks that are found each at its own place.
fn each_eighth(alloc: Global, lines: u32) -> Result<String, AllocError> {
    let mut text = String::new(alloc);
    for n in 0..lines {
        let place = n.saturating_mul(8);
        let line = format!(in alloc; "S 0 B {n} G 0 W {place} V 1: 7@{place}~0\n")?;
        text.push_str(line.as_str())?;
    }
    Ok(text)
}

// The lines of two blocks that are found at each start.
fn all_starts(alloc: Global) -> Result<String, AllocError> {
    let mut text = String::new(alloc);
    for head in ["S 0 B 0 G 0 W 0 V 1:", "S 0 B 1 G 0 W 256 V 1:"] {
        text.push_str(head)?;
        for start in 0..1745u32 {
            text.push_str(format!(in alloc; " 3@{start}~0")?.as_str())?;
        }
        text.push('\n')?;
    }
    Ok(text)
}
