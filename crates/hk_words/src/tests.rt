// Words that are a command, and words that are none.
use crate::{Order, PrintRules, RunRules, read_words};
use std::alloc::{AllocError, Global};

const REPLAY: RunRules = RunRules {
    stations: 1,
    flips: 4,
    hop: 64,
    songs: 1000,
    positions: 1048576,
    versions: 1000000,
    bytes: 1000000000000,
};

const PRINT: PrintRules = PrintRules {
    channels: 1,
    factor: 8,
    flips: 4,
    bytes: 1000000000000,
};

// The order of the words in a line, which are cut at its spaces.
fn ordered(alloc: Global, line: &str) -> Result<Option<Order>, AllocError> {
    let mut words = Vec::new(alloc);
    for word in line.split_ascii_whitespace() {
        words.push(String::from_str(alloc, word)?)?;
    }
    Ok(read_words(&words))
}

#[test]
fn commands_have_their_defaults(rt: HostRuntime) -> Result<(), AllocError> {
    assert_eq!(rt; ordered(rt.alloc(), "replay")?, Some(Order::Replay(REPLAY)));
    assert_eq!(rt; ordered(rt.alloc(), "print")?, Some(Order::Print(PRINT)));
    let made = Order::Make {
        seed: 2147483647,
        rules: RunRules {
            stations: 4,
            ..REPLAY
        },
    };
    assert_eq!(rt; ordered(rt.alloc(), "make 2147483647")?, Some(made));
    Ok(())
}

#[test]
fn options_stand_in_any_order(rt: HostRuntime) -> Result<(), AllocError> {
    let rules = RunRules {
        stations: 64,
        flips: 7,
        hop: 256,
        songs: 65536,
        positions: 256,
        versions: 1,
        bytes: 4000000000000000000,
    };
    let one =
        "replay --flips 007 --hop 256 --stations 64 --songs 65536 --positions 256 --versions 1 --bytes 4000000000000000000";
    let other =
        "replay --bytes 4000000000000000000 --versions 0000000000000000001 --stations 64 --positions 256 --songs 65536 --hop 256 --flips 7";
    assert_eq!(rt; ordered(rt.alloc(), one)?, Some(Order::Replay(rules)));
    assert_eq!(rt; ordered(rt.alloc(), other)?, Some(Order::Replay(rules)));
    let rules = PrintRules {
        channels: 2,
        factor: 4,
        flips: 0,
        bytes: 1,
    };
    assert_eq!(rt;
        ordered(
            rt.alloc(),
            "print --bytes 1 --factor 4 --channels 2 --flips 0"
        )?,
        Some(Order::Print(rules))
    );
    Ok(())
}

#[test]
fn other_words_are_no_command(rt: HostRuntime) -> Result<(), AllocError> {
    let lines = [
        "",
        "Replay",
        "replay --hop 0",
        "replay --hop 257",
        "replay --hop=64",
        "replay --hop",
        "replay --hop 64 --hop 64",
        "replay --hop -1",
        "replay --hop +1",
        "replay --hop 00000000000000000001",
        "replay -h",
        "replay -- --hop 64",
        "replay --channels 1",
        "print --factor 3",
        "print --flips 11",
        "print --bytes=5",
        "print --stations 1",
        "make",
        "make --hop 64",
        "make 2147483648",
        "make 1 --bytes 5",
        "--hop 64 replay",
    ];
    for line in lines {
        assert_eq!(rt; ordered(rt.alloc(), line)?, None, "{line}");
    }
    Ok(())
}
