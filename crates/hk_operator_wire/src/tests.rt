// Streams written out by hand.
use crate::{Form, OpItem, OpLast, OpWire, WireFault};

const HELLO: [u8; 4] = *b"HKO1";

// What the last of these bytes brings.
fn last_item(bytes: &[u8]) -> OpItem {
    let mut wire = OpWire::new(40);
    let mut item = OpItem::Nothing;
    for byte in bytes {
        item = wire.push(*byte);
    }
    item
}

#[test]
fn words_come_one_by_one(rt: HostRuntime) {
    let bytes = b"HKO1\x01\0\0\0\x0c\0\0\0\x07\0\0\x01\x02\xff\xff\xff\xff";
    assert_eq!(rt; last_item(&HELLO), OpItem::Nothing);
    assert_eq!(rt; last_item(&bytes[..8]), OpItem::Nothing);
    assert_eq!(rt; last_item(&bytes[..9]), OpItem::Begin(1));
    assert_eq!(rt; last_item(&bytes[..13]), OpItem::Id(7));
    assert_eq!(rt; last_item(&bytes[..16]), OpItem::Nothing);
    assert_eq!(rt; last_item(&bytes[..17]), OpItem::Word(258));
    assert_eq!(rt;
        last_item(bytes),
        OpItem::Both(OpLast::WordComplete(4294967295))
    );
}

#[test]
fn last_bytes_end_commands(rt: HostRuntime) {
    let no_words = b"HKO1\x01\0\0\0\x04\x80\0\0\0";
    assert_eq!(rt;
        last_item(no_words),
        OpItem::Both(OpLast::IdComplete(2147483648))
    );
    let open = b"HKO1\x02\0\0\0\x06\0\0\0\x03\x02\x08";
    let form = Form {
        channels: 2,
        factor: 8,
    };
    assert_eq!(rt; last_item(&open[..13]), OpItem::Id(3));
    assert_eq!(rt; last_item(&open[..14]), OpItem::Nothing);
    assert_eq!(rt; last_item(open), OpItem::Both(OpLast::FormComplete(form)));
    let audio = b"HKO1\x03\0\0\0\x02\x09\x0a";
    assert_eq!(rt; last_item(&audio[..10]), OpItem::Byte(9));
    assert_eq!(rt; last_item(audio), OpItem::Both(OpLast::ByteComplete(10)));
    let no_audio = b"HKO1\x03\0\0\0\0";
    assert_eq!(rt; last_item(no_audio), OpItem::Both(OpLast::BeginComplete(3)));
    let close = b"HKO1\x04\0\0\0\0";
    assert_eq!(rt; last_item(close), OpItem::Both(OpLast::BeginComplete(4)));
    let withdraw = b"HKO1\x06\0\0\0\0\x05\0\0\0\x04\0\0\x01\0";
    assert_eq!(rt;
        last_item(&withdraw[..9]),
        OpItem::Both(OpLast::BeginComplete(6))
    );
    assert_eq!(rt; last_item(withdraw), OpItem::Both(OpLast::IdComplete(256)));
}

#[test]
fn faults_stand_at_their_places(rt: HostRuntime) {
    assert_eq!(rt; last_item(b"HKS"), OpItem::Fault(WireFault::BadHello(2)));
    assert_eq!(rt;
        last_item(b"HKO1\xff"),
        OpItem::Fault(WireFault::BadKind(4))
    );
    let length = b"HKO1\x06\x01\0\0\x02\0";
    assert_eq!(rt; last_item(&length[..8]), OpItem::Nothing);
    assert_eq!(rt;
        last_item(&length[..9]),
        OpItem::Fault(WireFault::BadLength(5))
    );
    assert_eq!(rt; last_item(length), OpItem::Fault(WireFault::BadLength(5)));
    assert_eq!(rt;
        last_item(b"HKO1\x01\0\0\0\x06"),
        OpItem::Fault(WireFault::BadLength(5))
    );
    let channels = b"HKO1\x02\0\0\0\x06\0\0\0\x03\x03\x01";
    assert_eq!(rt;
        last_item(&channels[..14]),
        OpItem::Fault(WireFault::BadFormat(13))
    );
    assert_eq!(rt;
        last_item(channels),
        OpItem::Fault(WireFault::BadFormat(13))
    );
    let factor = b"HKO1\x02\0\0\0\x06\0\0\0\x03\x01\x03";
    assert_eq!(rt; last_item(factor), OpItem::Fault(WireFault::BadFormat(14)));
}

#[test]
fn streams_end_between_commands(rt: HostRuntime) {
    let mut wire = OpWire::new(6);
    assert_eq!(rt; wire.finish(), Ok(()));
    wire.push(b'H');
    assert_eq!(rt; wire.finish(), Err(WireFault::Cut(1)));
    for byte in &HELLO[1..] {
        wire.push(*byte);
    }
    assert_eq!(rt; wire.finish(), Ok(()));
    wire.push(6);
    assert_eq!(rt; wire.finish(), Err(WireFault::Cut(5)));
    wire.push(0);
    assert_eq!(rt; wire.push(0), OpItem::Fault(WireFault::TooLong(6)));
    assert_eq!(rt; wire.push(0), OpItem::Fault(WireFault::TooLong(6)));
    assert_eq!(rt; wire.finish(), Err(WireFault::TooLong(6)));
}
