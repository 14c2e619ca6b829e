// Streams written out by hand, over a catalogue for one thread.
use crate::{Done, Operator};
use hk_base::{OpEnd, Reason, Reply, What, WireFault};
use hk_probe::Alone;

const HELLO: [u8; 4] = *b"HKO1";

fn done(number: u64) -> Option<Reply> {
    Some(Reply {
        number,
        what: What::Done,
    })
}

fn published(number: u64, version: u32) -> Option<Reply> {
    Some(Reply {
        number,
        what: What::Published(version),
    })
}

fn refused(number: u64, reason: Reason) -> Option<Reply> {
    Some(Reply {
        number,
        what: What::Refused(reason),
    })
}

// What the last of these bytes does.
fn feed(operator: &mut Operator, shelf: &mut Alone, bytes: &[u8]) -> Done {
    let mut last = Done::More;
    for byte in bytes {
        last = operator.push(*byte, shelf);
    }
    last
}

// What is answered in the end; a publish is done here.
fn answer(done: Done, shelf: &mut Alone) -> Option<Reply> {
    match done {
        Done::Reply(reply) => Some(reply),
        Done::Publish(number) => match shelf.publish() {
            Ok(version) => published(number, version),
            Err(_) => refused(number, Reason::VersionsFull),
        },
        _ => None,
    }
}

// The answer to a command of this kind, with an id and a payload behind it.
fn command(
    operator: &mut Operator,
    shelf: &mut Alone,
    kind: u8,
    id: u32,
    payload: &[u8],
) -> Option<Reply> {
    let length = payload.len().min(100000) as u32 + 4;
    feed(operator, shelf, &[kind]);
    feed(operator, shelf, &length.to_be_bytes());
    let done = feed(operator, shelf, &id.to_be_bytes());
    if payload.is_empty() {
        return answer(done, shelf);
    }
    let done = feed(operator, shelf, payload);
    answer(done, shelf)
}

// The answer to a command without a payload.
fn short_command(operator: &mut Operator, shelf: &mut Alone, kind: u8) -> Option<Reply> {
    let done = feed(operator, shelf, &[kind, 0, 0, 0, 0]);
    answer(done, shelf)
}

#[test]
fn commands_are_refused_in_order(rt: HostRuntime) {
    let Ok(mut operator) = Operator::new(rt.alloc(), 100000, 512) else {
        panic!(rt; "no memory");
    };
    let Ok(mut shelf) = Alone::new(rt.alloc(), 2, 512, 2) else {
        panic!(rt; "no memory");
    };
    let add = 1;
    let open = 2;
    let withdraw = 5;
    let publish = 6;
    feed(&mut operator, &mut shelf, &HELLO);
    let block = [1; 1024];
    assert_eq!(rt; command(&mut operator, &mut shelf, add, 1, &block), done(1));
    assert_eq!(rt;
        command(&mut operator, &mut shelf, add, 1, &block),
        refused(2, Reason::Duplicate)
    );
    assert_eq!(rt;
        command(&mut operator, &mut shelf, add, 2, &[1; 1020]),
        refused(3, Reason::Short)
    );
    assert_eq!(rt;
        command(&mut operator, &mut shelf, withdraw, 9, &[]),
        refused(4, Reason::Unknown)
    );
    assert_eq!(rt;
        command(&mut operator, &mut shelf, add, 2, &[1; 1028]),
        refused(5, Reason::PositionsFull)
    );
    assert_eq!(rt; command(&mut operator, &mut shelf, add, 2, &block), done(6));
    assert_eq!(rt;
        command(&mut operator, &mut shelf, add, 3, &block),
        refused(7, Reason::SongsFull)
    );
    assert_eq!(rt;
        short_command(&mut operator, &mut shelf, 4),
        refused(8, Reason::NoSongOpen)
    );
    assert_eq!(rt;
        command(&mut operator, &mut shelf, open, 3, &[1, 1]),
        done(9)
    );
    assert_eq!(rt;
        command(&mut operator, &mut shelf, open, 4, &[1, 1]),
        refused(10, Reason::SongOpen)
    );
    assert_eq!(rt; short_command(&mut operator, &mut shelf, 3), done(11));
    assert_eq!(rt;
        short_command(&mut operator, &mut shelf, 4),
        refused(12, Reason::Short)
    );
    assert_eq!(rt;
        short_command(&mut operator, &mut shelf, publish),
        published(13, 1)
    );
    assert_eq!(rt;
        short_command(&mut operator, &mut shelf, publish),
        published(14, 2)
    );
    assert_eq!(rt;
        short_command(&mut operator, &mut shelf, publish),
        refused(15, Reason::VersionsFull)
    );
    assert_eq!(rt; operator.commands(), 15);
    assert_eq!(rt; operator.finish(), OpEnd::Ended);
}

#[test]
fn sound_is_added_as_words(rt: HostRuntime) {
    let Ok(mut operator) = Operator::new(rt.alloc(), 100000, 512) else {
        panic!(rt; "no memory");
    };
    let Ok(mut shelf) = Alone::new(rt.alloc(), 2, 512, 2) else {
        panic!(rt; "no memory");
    };
    feed(&mut operator, &mut shelf, &HELLO);
    command(&mut operator, &mut shelf, 2, 7, &[1, 1]);
    let odd = feed(&mut operator, &mut shelf, &[3, 0, 0, 0, 1, 0]);
    assert_eq!(rt; answer(odd, &mut shelf), done(2));
    feed(&mut operator, &mut shelf, &[3, 0, 0, 143, 255]);
    let rest = feed(&mut operator, &mut shelf, &[0; 36863]);
    assert_eq!(rt; answer(rest, &mut shelf), done(3));
    assert_eq!(rt; short_command(&mut operator, &mut shelf, 4), done(4));
    assert_eq!(rt;
        short_command(&mut operator, &mut shelf, 4),
        refused(5, Reason::NoSongOpen)
    );
    assert_eq!(rt; command(&mut operator, &mut shelf, 2, 8, &[1, 1]), done(6));
    feed(&mut operator, &mut shelf, &[3, 0, 0, 143, 254]);
    feed(&mut operator, &mut shelf, &[0; 36862]);
    assert_eq!(rt;
        short_command(&mut operator, &mut shelf, 4),
        refused(8, Reason::Short)
    );
    assert_eq!(rt; command(&mut operator, &mut shelf, 5, 7, &[]), done(9));
}

// How a stream of these bytes ends, of which at most 30 are taken.
fn end_of(rt: HostRuntime, bytes: &[u8]) -> Option<OpEnd> {
    let Ok(mut operator) = Operator::new(rt.alloc(), 30, 256) else {
        return None;
    };
    let Ok(mut shelf) = Alone::new(rt.alloc(), 1, 256, 1) else {
        return None;
    };
    feed(&mut operator, &mut shelf, bytes);
    Some(operator.finish())
}

fn fault(fault: WireFault) -> Option<OpEnd> {
    Some(OpEnd::Wire(fault))
}

#[test]
fn faults_end_the_stream(rt: HostRuntime) {
    assert_eq!(rt; end_of(rt, b"HKO9"), fault(WireFault::BadHello(3)));
    assert_eq!(rt; end_of(rt, b"HKO1\x07"), fault(WireFault::BadKind(4)));
    assert_eq!(rt;
        end_of(rt, b"HKO1\x04\0\0\0\x01"),
        fault(WireFault::BadLength(5))
    );
    assert_eq!(rt;
        end_of(rt, b"HKO1\x02\0\0\0\x06\0\0\0\x03\x03\x01"),
        fault(WireFault::BadFormat(13))
    );
    assert_eq!(rt;
        end_of(rt, b"HKO1\x02\0\0\0\x06\0\0\0\x03\x02\x03"),
        fault(WireFault::BadFormat(14))
    );
    assert_eq!(rt;
        end_of(rt, b"HKO1\x03\0\0\0\x15aaaaaaaaaaaaaaaaaaaaab"),
        fault(WireFault::TooLong(30))
    );
}

#[test]
fn streams_end_between_commands(rt: HostRuntime) {
    let bytes = b"HKO1\x06\0\0\0\0\x05\0\0\0\x04\0\0\0\x07";
    for length in 0..19 {
        let border = length == 0 || length == 4 || length == 9 || length == 18;
        let end = if border {
            OpEnd::Ended
        } else {
            OpEnd::Wire(WireFault::Cut(length as u64))
        };
        assert_eq!(rt; end_of(rt, &bytes[..length]), Some(end));
    }
}
