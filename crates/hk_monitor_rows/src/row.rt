// What a row is: what the monitor is given, what fails, and what may come.

/// Words of a recording, or of prints.
#[derive(Clone, Copy)]
pub enum Words {
    /// So many words: 0, 1, 2 and so on. As prints they have no weak bit.
    Rising(u32),
    /// So many words of 0. As prints they have ten weak bits each.
    Zeros(u32),
}

/// What a station's link waits for before it gives its bytes.
#[derive(Clone, Copy)]
pub enum Hold {
    Nothing,
    /// The replies say that version 1 is published.
    Published,
    /// Another station's log has text.
    Logged,
}

/// A station: its link, and what it sends.
#[derive(Clone, Copy)]
pub struct Station {
    pub hold: Hold,
    /// A fence of version 1 stands before the prints.
    pub is_fenced: bool,
    pub prints: Words,
}

/// What may fail. The link and the log are those of station 0, and the gate is that of worker 0.
#[derive(Clone, Copy, PartialEq, Eq)]
pub enum Part {
    Link,
    Log,
    Calls,
    Replies,
    Gate,
    Door,
    Output,
}

/// What is wanted of a text.
#[derive(Clone, Copy)]
pub enum Text {
    Whole(&'static str),
    /// A front of this, but not all of it.
    FrontOf(&'static str),
    /// So many lines of station 0, with a hop of 8: each block has its own place in recording 7.
    EachEighth(u32),
    /// Two lines of station 0, with a hop of 256: both blocks match all 1745 starts of recording 3.
    AllStarts,
}

/// What may come of a run.
#[derive(Clone, Copy)]
pub struct Outcome {
    pub status: u8,
    pub summary: &'static str,
    pub replies: &'static str,
    pub log_0: Text,
    pub log_1: Text,
}

/// A row. It is played once for each of the first `runs` calls of the part that fails, and in each run that call alone fails.
#[derive(Clone, Copy)]
pub struct Row {
    pub name: &'static str,
    pub words: &'static str,
    /// The recording that the operator adds and publishes; without one the operator sends no byte.
    pub recording: Option<Words>,
    pub stations: &'static [Station],
    pub failing: Option<Part>,
    pub runs: u64,
    /// The first wait of each of two gates returns once both are waiting.
    pub gates_meet: bool,
    pub wanted: &'static [Outcome],
}
