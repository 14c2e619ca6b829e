// Short streams of calls by hand, each at a desk of its own.
ghost use Rattle.std.specs.Prelude.{◌≡◌, ◌≤◌, ◌<◌, Some, length, take, drop};
ghost use Rattle.hk_base.specs.Devices.{Rose, IfBytes, OnEnd, OnNothing, OnFailed, OnNoFailure, Took, IsNothing};
ghost use Rattle.hk_base.specs.Memory.{bytes_left};

use crate::Office;
use hk_base::{Flag, Got, MemorySink, MemorySource, OpEnd, Source, WireFault};
use hk_crew::Attend;
use hk_operator::Operator;
use hk_publish::start;
use std::alloc::Global;
use std::sync::Wait;
use std::test::Fail;

const HELLO: &[u8] = b"HKO1";

// A song with the number 7 and 256 words of 0.
const HEAD: &[u8] = b"\x01\x00\x00\x04\x04\x00\x00\x00\x07";

const WORDS: &[u8] = &[0; 1024];

const PUBLISH: &[u8] = b"\x06\x00\x00\x00\x00";

// More than all replies need.
const ROOM: u32 = 1000;

// One after another.
fn join(alloc: Global, parts: &[&[u8]]) -> Result<Vec<u8>, Fail> {
    let mut bytes = Vec::new(alloc);
    for part in parts {
        bytes.extend_from_slice(part)?;
    }
    Ok(bytes)
}

// The hello, the song and one publish.
fn first_path(alloc: Global) -> Result<Vec<u8>, Fail> {
    join(alloc, &[HELLO, HEAD, WORDS, PUBLISH])
}

// Serves an operator at a new desk, which publishes up to two versions, and answers how many were published.
fn serve<C: Source + Drop, R: Wait + Clone + Send + Drop>(
    rt: &R,
    alloc: Global,
    calls: C,
    replies: MemorySink,
) -> Result<(Office<C, MemorySink>, u32), Fail> {
    let mut office = Office {
        operator: Operator::new(alloc, 100_000, 1000)?,
        calls,
        replies,
        end: None,
    };
    let (mut desk, _readings) = start(rt, alloc, 10, 1000, 2, 1)?;
    office.attend(&mut desk, rt);
    let version = desk.version();
    desk.close(rt);
    Ok((office, version))
}

#[test]
fn a_song_is_added_and_published(rt: HostRuntime) -> Result<(), Fail> {
    let alloc = rt.alloc();
    let calls = MemorySource::new(first_path(alloc)?, Vec::new(alloc), Vec::new(alloc));
    let replies = MemorySink::new(alloc, ROOM, Vec::new(alloc))?;
    let (office, version) = serve(&&rt, alloc, calls, replies)?;
    assert_eq!(rt; office.end, Some(OpEnd::Ended));
    assert_eq!(rt;
        office.replies.written(),
        b"O 1 ok\nO 2 published 1\n".as_slice()
    );
    assert_eq!(rt; (version, office.whole_replies()), (1, 2));
    Ok(())
}

// The first read gives all up to the publish, and the second one fails.
#[test]
fn a_read_fails_behind_the_first_reply(rt: HostRuntime) -> Result<(), Fail> {
    let alloc = rt.alloc();
    let cuts = vec![in alloc; HELLO.len() + HEAD.len() + WORDS.len()]?;
    let failing = vec![in alloc; 1u64]?;
    let calls = MemorySource::new(first_path(alloc)?, cuts, failing);
    let replies = MemorySink::new(alloc, ROOM, Vec::new(alloc))?;
    let (office, version) = serve(&&rt, alloc, calls, replies)?;
    assert_eq!(rt; office.end, Some(OpEnd::ReadFault));
    assert_eq!(rt; office.replies.written(), b"O 1 ok\n".as_slice());
    assert_eq!(rt; (version, office.whole_replies()), (0, 1));
    Ok(())
}

// The publish is done, and the one behind it isn't read.
#[test]
fn the_second_reply_is_torn(rt: HostRuntime) -> Result<(), Fail> {
    let alloc = rt.alloc();
    let bytes = join(alloc, &[HELLO, HEAD, WORDS, PUBLISH, PUBLISH])?;
    let calls = MemorySource::new(bytes, Vec::new(alloc), Vec::new(alloc));
    let replies = MemorySink::new(alloc, 14, Vec::new(alloc))?;
    let (office, version) = serve(&&rt, alloc, calls, replies)?;
    assert_eq!(rt; office.end, Some(OpEnd::SinkFault));
    assert_eq!(rt; office.replies.written(), b"O 1 ok\nO 2 pub".as_slice());
    assert_eq!(rt; (version, office.whole_replies()), (1, 1));
    Ok(())
}

#[test]
fn no_version_is_left(rt: HostRuntime) -> Result<(), Fail> {
    let alloc = rt.alloc();
    let bytes = join(alloc, &[HELLO, PUBLISH, PUBLISH, PUBLISH])?;
    let calls = MemorySource::new(bytes, Vec::new(alloc), Vec::new(alloc));
    let replies = MemorySink::new(alloc, ROOM, Vec::new(alloc))?;
    let (office, version) = serve(&&rt, alloc, calls, replies)?;
    assert_eq!(rt; office.end, Some(OpEnd::Ended));
    let text = b"O 1 published 1\nO 2 published 2\nO 3 refused versions-full\n";
    assert_eq!(rt; office.replies.written(), text.as_slice());
    assert_eq!(rt; (version, office.whole_replies()), (2, 3));
    Ok(())
}

// A kind that there isn't, with a publish behind it.
#[test]
fn a_fault_ends_the_stream(rt: HostRuntime) -> Result<(), Fail> {
    let alloc = rt.alloc();
    let bytes = join(alloc, &[HELLO, PUBLISH, b"\x09", PUBLISH])?;
    let calls = MemorySource::new(bytes, Vec::new(alloc), Vec::new(alloc));
    let replies = MemorySink::new(alloc, ROOM, Vec::new(alloc))?;
    let (office, version) = serve(&&rt, alloc, calls, replies)?;
    assert_eq!(rt; office.end, Some(OpEnd::Wire(WireFault::BadKind(9))));
    assert_eq!(rt; office.replies.written(), b"O 1 published 1\n".as_slice());
    assert_eq!(rt; (version, office.whole_replies()), (1, 1));
    Ok(())
}

#[test]
fn a_command_is_cut(rt: HostRuntime) -> Result<(), Fail> {
    let alloc = rt.alloc();
    let bytes = join(alloc, &[HELLO, PUBLISH, b"\x06\x00"])?;
    let calls = MemorySource::new(bytes, Vec::new(alloc), Vec::new(alloc));
    let replies = MemorySink::new(alloc, ROOM, Vec::new(alloc))?;
    let (office, version) = serve(&&rt, alloc, calls, replies)?;
    assert_eq!(rt; office.end, Some(OpEnd::Wire(WireFault::Cut(11))));
    assert_eq!(rt; office.replies.written(), b"O 1 published 1\n".as_slice());
    assert_eq!(rt; (version, office.whole_replies()), (1, 1));
    Ok(())
}

// Bytes in memory, whose second read sees whether a flag was raised by then.
#[derive(Drop)]
struct Watchful {
    bytes: MemorySource,
    reads: u32,
    flag: Flag,
    was_raised: bool,
}

impl Source for Watchful {
    ghost left = { λ w. Some (bytes_left w.bytes) };

    ghost faults = { λ w. w.bytes.faults };

    fn read(&mut self, into: &mut [u8]) -> Got {
        self.reads = self.reads.saturating_add(1);
        if self.reads == 2 {
            self.was_raised = self.flag.is_raised();
        }
        self.bytes.read(into)
    }
}

#[test]
fn a_reply_is_written_before_the_next_read(rt: HostRuntime) -> Result<(), Fail> {
    let alloc = rt.alloc();
    let flag = Flag::new(alloc)?;
    let cuts = vec![in alloc; HELLO.len() + PUBLISH.len()]?;
    let bytes = join(alloc, &[HELLO, PUBLISH, PUBLISH])?;
    let text = join(alloc, &[b"O 1 published 1\n"])?;
    let replies = MemorySink::raising(alloc, ROOM, Vec::new(alloc), flag.share()?, text)?;
    let calls = Watchful {
        bytes: MemorySource::new(bytes, cuts, Vec::new(alloc)),
        reads: 0,
        flag,
        was_raised: false,
    };
    let (office, version) = serve(&&rt, alloc, calls, replies)?;
    assert_eq!(rt; office.end, Some(OpEnd::Ended));
    assert_eq!(rt; (version, office.calls.was_raised), (2, true));
    Ok(())
}
