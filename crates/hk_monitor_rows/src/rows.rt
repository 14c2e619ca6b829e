// Rows in which nothing fails.
use crate::row::{Hold, Outcome, Row, Station, Text, Words};

const REPLIES: &str = "O 1 ok\nO 2 published 1\n";

/// The line of station 0 where nothing is published.
pub const BEFORE_0: &str = "S 0 B 0 G 0 W 0 V 0: none\n";

/// That of station 1.
pub const BEFORE_1: &str = "S 1 B 0 G 0 W 0 V 0: none\n";

const AFTER_0: &str = "S 0 B 0 G 0 W 0 V 1: 7@0~0\n";

const AFTER_1: &str = "S 1 B 0 G 0 W 0 V 1: 7@0~0\n";

/// The words of one block, and of the recording that it is found in.
pub const BLOCK: Words = Words::Rising(256);

/// A station that sends one block at once.
pub const FREE: Station = Station {
    hold: Hold::Nothing,
    is_fenced: false,
    prints: BLOCK,
};

// One that waits for the publish, and is served without a word of it.
const LATE: Station = Station {
    hold: Hold::Published,
    ..FREE
};

// One that waits for the publish, and asks for it.
const FENCED: Station = Station {
    is_fenced: true,
    ..LATE
};

// One that waits for the other station's line.
const LAST: Station = Station {
    hold: Hold::Logged,
    ..FREE
};

/// Two stations, each with a worker and one block.
pub const TWO: Row = Row {
    name: "two stations",
    words: "--stations 2 --workers 2",
    recording: None,
    stations: &[FREE, FREE],
    failing: None,
    runs: 1,
    gates_meet: false,
    wanted: &[Outcome {
        status: 0,
        summary: "T S 0 1 0 ended\nT S 1 1 0 ended\nT O 0 0 ended\n",
        replies: "",
        log_0: Text::Whole(BEFORE_0),
        log_1: Text::Whole(BEFORE_1),
    }],
};

const BOTH_BEFORE: Outcome = Outcome {
    status: 0,
    summary: "T S 0 1 0 ended\nT S 1 1 0 ended\nT O 2 1 ended\n",
    replies: REPLIES,
    log_0: Text::Whole(BEFORE_0),
    log_1: Text::Whole(BEFORE_1),
};

const ONLY_0_AFTER: Outcome = Outcome {
    status: 0,
    summary: "T S 0 1 1 ended\nT S 1 1 0 ended\nT O 2 1 ended\n",
    replies: REPLIES,
    log_0: Text::Whole(AFTER_0),
    log_1: Text::Whole(BEFORE_1),
};

const ONLY_1_AFTER: Outcome = Outcome {
    status: 0,
    summary: "T S 0 1 0 ended\nT S 1 1 1 ended\nT O 2 1 ended\n",
    replies: REPLIES,
    log_0: Text::Whole(BEFORE_0),
    log_1: Text::Whole(AFTER_1),
};

const BOTH_AFTER: Outcome = Outcome {
    status: 0,
    summary: "T S 0 1 1 ended\nT S 1 1 1 ended\nT O 2 1 ended\n",
    replies: REPLIES,
    log_0: Text::Whole(AFTER_0),
    log_1: Text::Whole(AFTER_1),
};

/// The rows.
pub const ROWS: [Row; 9] = [
    Row {
        name: "station 0 waits for the line of station 1, which waits for the publish",
        recording: Some(BLOCK),
        stations: &[LAST, LATE],
        wanted: &[BOTH_BEFORE, ONLY_0_AFTER, ONLY_1_AFTER, BOTH_AFTER],
        ..TWO
    },
    Row {
        name: "station 1 waits for the line of station 0, which waits for the publish",
        recording: Some(BLOCK),
        stations: &[LATE, LAST],
        wanted: &[BOTH_BEFORE, ONLY_0_AFTER, ONLY_1_AFTER, BOTH_AFTER],
        ..TWO
    },
    Row {
        name: "station 0 waits for station 1, whose fence asks for the publish",
        recording: Some(BLOCK),
        stations: &[LAST, FENCED],
        wanted: &[ONLY_1_AFTER, BOTH_AFTER],
        ..TWO
    },
    Row {
        name: "station 1 waits for station 0, whose fence asks for the publish",
        recording: Some(BLOCK),
        stations: &[FENCED, LAST],
        wanted: &[ONLY_0_AFTER, BOTH_AFTER],
        ..TWO
    },
    Row {
        name: "each gate's first wait ends once the other gate waits",
        gates_meet: true,
        ..TWO
    },
    Row {
        name: "a limit of 100 bytes ends a station",
        words: "--stations 1 --bytes 100",
        stations: &[FREE],
        wanted: &[Outcome {
            status: 3,
            summary: "T S 0 0 0 too-long 100\nT O 0 0 ended\n",
            replies: "",
            log_0: Text::Whole(""),
            log_1: Text::Whole(""),
        }],
        ..TWO
    },
    Row {
        name: "a limit of all its bytes doesn't",
        words: "--stations 1 --bytes 2057",
        stations: &[FREE],
        wanted: &[Outcome {
            status: 0,
            summary: "T S 0 1 0 ended\nT O 0 0 ended\n",
            replies: "",
            log_0: Text::Whole(BEFORE_0),
            log_1: Text::Whole(""),
        }],
        ..TWO
    },
    Row {
        name: "a long recording is found at each block",
        words: "--stations 1 --workers 1 --hop 8",
        recording: Some(Words::Rising(250_000)),
        stations: &[Station {
            prints: Words::Rising(249_856),
            ..FENCED
        }],
        wanted: &[Outcome {
            status: 0,
            summary: "T S 0 31201 1 ended\nT O 2 1 ended\n",
            replies: REPLIES,
            log_0: Text::EachEighth(31_201),
            log_1: Text::Whole(""),
        }],
        ..TWO
    },
    Row {
        name: "silence is found at each start of a silent recording",
        words: "--stations 1 --workers 1 --hop 256",
        recording: Some(Words::Zeros(2_000)),
        stations: &[Station {
            prints: Words::Zeros(512),
            ..FENCED
        }],
        wanted: &[Outcome {
            status: 0,
            summary: "T S 0 2 1 ended\nT O 2 1 ended\n",
            replies: REPLIES,
            log_0: Text::AllStarts,
            log_1: Text::Whole(""),
        }],
        ..TWO
    },
];
