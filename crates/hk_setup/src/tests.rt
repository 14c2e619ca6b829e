// Words that are a command, and words that are none.
use crate::{Plan, WordsFault, read_plan};
use std::alloc::{AllocError, Global};

// What the words of a line are read as; they are cut at its spaces.
fn plan_read(alloc: Global, line: &str) -> Result<Result<Plan, WordsFault>, AllocError> {
    let mut words = Vec::new(alloc);
    for word in line.split_ascii_whitespace() {
        words.push(String::from_str(alloc, word)?)?;
    }
    Ok(read_plan(alloc, &words))
}

// Whether the words of a line are no command.
fn is_refused(alloc: Global, line: &str) -> Result<bool, AllocError> {
    match plan_read(alloc, line)? {
        Ok(_) => Ok(false),
        Err(fault) => Ok(fault == WordsFault::Usage),
    }
}

// The numbers of a plan, in the order of the options.
fn numbers_of(plan: &Plan) -> [u64; 10] {
    [
        u64::from(plan.stations),
        u64::from(plan.workers),
        u64::from(plan.flips),
        u64::from(plan.hop),
        u64::from(plan.songs),
        u64::from(plan.positions),
        u64::from(plan.versions),
        plan.bytes,
        u64::from(plan.station_port),
        u64::from(plan.operator_port),
    ]
}

// Whether the words of a line give these numbers and texts.
fn gives(
    alloc: Global,
    line: &str,
    numbers: [u64; 10],
    address: &str,
    logs: &str,
) -> Result<bool, AllocError> {
    match plan_read(alloc, line)? {
        Ok(plan) => Ok(
            numbers_of(&plan) == numbers
                && plan.address.as_str() == address
                && plan.logs.as_str() == logs,
        ),
        Err(_) => Ok(false),
    }
}

const DEFAULTS: [u64; 10] = [
    1,
    2,
    4,
    64,
    1000,
    1048576,
    1000000,
    1000000000000,
    7701,
    7702,
];

#[test]
fn no_words_are_the_defaults(rt: HostRuntime) -> Result<(), AllocError> {
    assert!(rt; gives(rt.alloc(), "", DEFAULTS, "127.0.0.1", "station")?);
    Ok(())
}

#[test]
fn each_option_has_its_value(rt: HostRuntime) -> Result<(), AllocError> {
    let line =
        "--logs /var/log/radio --address=0.0.0.0 --operator-port 9 --station-port=8 --bytes 7 --versions 6 --positions 500 --songs 5 --hop 4 --flips 3 --workers 2 --stations 1";
    let numbers = [1, 2, 3, 4, 5, 500, 6, 7, 8, 9];
    assert!(rt; gives(rt.alloc(), line, numbers, "0.0.0.0", "/var/log/radio")?);
    Ok(())
}

#[test]
fn the_ends_of_each_range_are_taken(rt: HostRuntime) -> Result<(), AllocError> {
    let least =
        "--stations 1 --workers 1 --flips 0 --hop 1 --songs 1 --positions 256 --versions 1 --bytes 1 --station-port 1 --operator-port 1";
    assert!(rt;
        gives(
            rt.alloc(),
            least,
            [1, 1, 0, 1, 1, 256, 1, 1, 1, 1],
            "127.0.0.1",
            "station"
        )?
    );
    let most =
        "--stations 64 --workers 16 --flips 10 --hop 256 --songs 65536 --positions 16777216 --versions 1000000000 --bytes 4000000000000000000 --station-port 65535 --operator-port 65535";
    let numbers = [
        64,
        16,
        10,
        256,
        65536,
        16777216,
        1000000000,
        4000000000000000000,
        65535,
        65535,
    ];
    assert!(rt; gives(rt.alloc(), most, numbers, "127.0.0.1", "station")?);
    Ok(())
}

#[test]
fn numbers_out_of_their_range_are_refused(rt: HostRuntime) -> Result<(), AllocError> {
    let lines = [
        "--stations 0",
        "--stations 65",
        "--workers 0",
        "--workers 17",
        "--flips 11",
        "--hop 0",
        "--hop 257",
        "--songs 0",
        "--songs 65537",
        "--positions 255",
        "--positions 16777217",
        "--versions 0",
        "--versions 1000000001",
        "--bytes 0",
        "--bytes 4000000000000000001",
        "--bytes 99999999999999999999",
        "--station-port 0",
        "--station-port 65536",
        "--operator-port 0",
        "--operator-port 65536",
    ];
    for line in lines {
        assert!(rt; is_refused(rt.alloc(), line)?);
    }
    Ok(())
}

#[test]
fn words_that_are_no_option_are_refused(rt: HostRuntime) -> Result<(), AllocError> {
    let lines = [
        "listen",
        "--depth 1",
        "--stations",
        "--stations two",
        "--stations -1",
        "--stations 1 --stations 2",
        "--help",
        "-h",
        "--version",
        "--address",
    ];
    for line in lines {
        assert!(rt; is_refused(rt.alloc(), line)?);
    }
    Ok(())
}
