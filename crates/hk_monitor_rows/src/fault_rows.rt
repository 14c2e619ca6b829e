// Rows in which something fails once.
use crate::row::{Outcome, Part, Row, Text};
use crate::rows::{BEFORE_0, BEFORE_1, BLOCK, FREE, TWO};

// One station alone.
const ONE: Row = Row {
    words: "--stations 1",
    stations: &[FREE],
    ..TWO
};

const NO_TEXT: Text = Text::Whole("");

const LINE_0: Text = Text::Whole(BEFORE_0);

const LINE_1: Text = Text::Whole(BEFORE_1);

const NOTHING: Outcome = Outcome {
    status: 8,
    summary: "",
    replies: "",
    log_0: NO_TEXT,
    log_1: NO_TEXT,
};

/// The rows.
pub const FAULT_ROWS: [Row; 12] = [
    Row {
        name: "the first read of station 0 fails",
        failing: Some(Part::Link),
        wanted: &[Outcome {
            status: 3,
            summary: "T S 0 0 0 read-fault\nT S 1 1 0 ended\nT O 0 0 ended\n",
            replies: "",
            log_0: NO_TEXT,
            log_1: LINE_1,
        }],
        ..TWO
    },
    Row {
        name: "the first write of the log of station 0 fails",
        failing: Some(Part::Log),
        wanted: &[Outcome {
            status: 3,
            summary: "T S 0 0 0 sink-fault\nT S 1 1 0 ended\nT O 0 0 ended\n",
            replies: "",
            log_0: NO_TEXT,
            log_1: LINE_1,
        }],
        ..TWO
    },
    Row {
        name: "each of eight writes of the log of station 0 fails, where there are so many",
        failing: Some(Part::Log),
        runs: 8,
        wanted: &[
            Outcome {
                status: 3,
                summary: "T S 0 0 0 sink-fault\nT S 1 1 0 ended\nT O 0 0 ended\n",
                replies: "",
                log_0: Text::FrontOf(BEFORE_0),
                log_1: LINE_1,
            },
            Outcome {
                status: 0,
                summary: "T S 0 1 0 ended\nT S 1 1 0 ended\nT O 0 0 ended\n",
                replies: "",
                log_0: LINE_0,
                log_1: LINE_1,
            },
        ],
        ..TWO
    },
    Row {
        name: "the first read of the operator's calls fails",
        failing: Some(Part::Calls),
        wanted: &[Outcome {
            status: 3,
            summary: "T S 0 1 0 ended\nT S 1 1 0 ended\nT O 0 0 read-fault\n",
            replies: "",
            log_0: LINE_0,
            log_1: LINE_1,
        }],
        ..TWO
    },
    Row {
        name: "the first write of the replies fails",
        recording: Some(BLOCK),
        failing: Some(Part::Replies),
        wanted: &[Outcome {
            status: 3,
            summary: "T S 0 1 0 ended\nT S 1 1 0 ended\nT O 0 0 sink-fault\n",
            replies: "",
            log_0: LINE_0,
            log_1: LINE_1,
        }],
        ..TWO
    },
    Row {
        name: "the watch or the first wait of the gate of worker 0 fails",
        failing: Some(Part::Gate),
        runs: 2,
        wanted: &[Outcome {
            status: 3,
            summary: "T S 0 0 0 gate-fault\nT S 1 1 0 ended\nT O 0 0 ended\n",
            replies: "",
            log_0: NO_TEXT,
            log_1: LINE_1,
        }],
        ..TWO
    },
    Row {
        name: "each of six calls of the door fails",
        failing: Some(Part::Door),
        runs: 6,
        wanted: &[NOTHING],
        ..TWO
    },
    Row {
        name: "the first write of the summary fails",
        failing: Some(Part::Output),
        wanted: &[Outcome {
            status: 6,
            summary: "",
            replies: "",
            log_0: LINE_0,
            log_1: LINE_1,
        }],
        ..TWO
    },
    Row {
        name: "the first read of the only station fails",
        failing: Some(Part::Link),
        wanted: &[Outcome {
            status: 3,
            summary: "T S 0 0 0 read-fault\nT O 0 0 ended\n",
            replies: "",
            log_0: NO_TEXT,
            log_1: NO_TEXT,
        }],
        ..ONE
    },
    Row {
        name: "the watch or the first wait of its gate fails",
        failing: Some(Part::Gate),
        runs: 2,
        wanted: &[Outcome {
            status: 3,
            summary: "T S 0 0 0 gate-fault\nT O 0 0 ended\n",
            replies: "",
            log_0: NO_TEXT,
            log_1: NO_TEXT,
        }],
        ..ONE
    },
    Row {
        name: "the start of its door fails",
        failing: Some(Part::Door),
        wanted: &[NOTHING],
        ..ONE
    },
    Row {
        name: "the first write of its summary fails",
        failing: Some(Part::Output),
        wanted: &[Outcome {
            status: 6,
            summary: "",
            replies: "",
            log_0: LINE_0,
            log_1: NO_TEXT,
        }],
        ..ONE
    },
];
