use super::*;
use std::test::*;

// What the last of these bytes brings.
fn last_item(limit: u64, bytes: &[u8]) -> Item {
    let mut wire = Wire::new(limit);
    let mut item = Item::Nothing;
    for byte in bytes {
        item = wire.push(*byte);
    }
    item
}

fn ending(bytes: &[u8]) -> Result<(), WireFault> {
    let mut wire = Wire::new(100);
    for byte in bytes {
        wire.push(*byte);
    }
    wire.finish()
}

#[test]
fn prints_fences_and_gaps(rt: HostRuntime) {
    let form = Form {
        channels: 0,
        factor: 1,
    };
    assert_eq!(rt; last_item(100, b"HKS1\0\x01"), Item::Hello(form));
    let print = Print { word: 5, mask: 3 };
    assert_eq!(rt;
        last_item(100, b"HKS1\0\x01\x01\0\x08\0\0\0\x05\0\0\0\x03"),
        Item::Print(print)
    );
    // A packet ends inside the print, and a fence stands between.
    assert_eq!(rt;
        last_item(100, b"HKS1\0\x01\x01\0\x02\0\0\x02\0\x04\0\0\0\x07"),
        Item::Fence(7)
    );
    assert_eq!(rt;
        last_item(
            100,
            b"HKS1\0\x01\x01\0\x02\0\0\x02\0\x04\0\0\0\x07\x01\0\x06\0\x05\0\0\0\x03"
        ),
        Item::Print(print)
    );
    assert_eq!(rt; last_item(100, b"HKS1\0\x01\x03\0\0"), Item::Gap);
}

#[test]
fn sound(rt: HostRuntime) {
    let form = Form {
        channels: 2,
        factor: 8,
    };
    assert_eq!(rt; last_item(100, b"HKS1\x02\x08"), Item::Hello(form));
    assert_eq!(rt;
        last_item(100, b"HKS1\x02\x08\x01\0\x02\x09"),
        Item::Byte(9)
    );
}

#[test]
fn faults(rt: HostRuntime) {
    assert_eq!(rt;
        last_item(100, b"HKS9"),
        Item::Fault(WireFault::BadHello(3))
    );
    assert_eq!(rt;
        last_item(100, b"HKS1\x03"),
        Item::Fault(WireFault::BadHello(4))
    );
    assert_eq!(rt;
        last_item(100, b"HKS1\0\x02"),
        Item::Fault(WireFault::BadHello(5))
    );
    assert_eq!(rt;
        last_item(100, b"HKS1\0\x01\x09"),
        Item::Fault(WireFault::BadKind(6))
    );
    assert_eq!(rt;
        last_item(100, b"HKS1\0\x01\x02\0\x03"),
        Item::Fault(WireFault::BadLength(7))
    );
    assert_eq!(rt;
        last_item(100, b"HKS1\0\x01\x01\0\x08\0\0\0\0\0\0\x07\xff"),
        Item::Fault(WireFault::BadMask(16))
    );
    assert_eq!(rt;
        last_item(6, b"HKS1\0\x01\x09\x09"),
        Item::Fault(WireFault::TooLong(6))
    );
}

#[test]
fn endings(rt: HostRuntime) {
    assert_eq!(rt; ending(b""), Err(WireFault::Cut(0)));
    assert_eq!(rt; ending(b"HKS1\0\x01"), Ok(()));
    assert_eq!(rt; ending(b"HKS1\0\x01\x01\0\0"), Ok(()));
    assert_eq!(rt; ending(b"HKS1\0\x01\x01\0"), Err(WireFault::Cut(8)));
    assert_eq!(rt; ending(b"HKS1\0\x01\x09\0"), Err(WireFault::BadKind(6)));
}

#[test]
fn a_stream_cut_at_each_place(rt: HostRuntime) {
    let stream = b"HKS1\0\x01\x01\0\x08\0\0\0\x05\0\0\0\x03\x03\0\0";
    for count in 0..=stream.len() {
        let expected = match count {
            6 | 17 | 20 => Ok(()),
            _ => Err(WireFault::Cut(count as u64)),
        };
        assert_eq!(rt; ending(&stream[..count]), expected, "{count}");
    }
}

#[test]
fn pieces_and_single_bytes_of_sound_are_taken_the_same(rt: HostRuntime) {
    let stream = b"HKS1\x02\x08\x01\0\x10abcdefghijklmnop\x03\0\0\x01\0\x01a";
    let mut single = Wire::new(100);
    let mut pieces = Wire::new(100);
    let mut left: u64 = 0;
    let mut skipped = 0u64;
    for byte in stream {
        let item = single.push(*byte);
        if left > 0 {
            left -= 1;
            assert_eq!(rt; item, Item::Byte(*byte));
        } else {
            assert_eq!(rt; pieces.push(*byte), item);
            left = pieces.stretch();
            if left > 0 {
                pieces.skip(left);
                skipped = skipped.wrapping_add(left);
            }
        }
    }
    // All of the packet's sixteen bytes but the nine that come with its first twelve.
    assert_eq!(rt; skipped, 7);
    assert_eq!(rt; pieces.taken(), single.taken());
    assert_eq!(rt; pieces.finish(), single.finish());
}

#[test]
fn a_stretch_ends_at_the_limit(rt: HostRuntime) {
    let mut wire = Wire::new(20);
    for byte in b"HKS1\x01\x01\x01\0\x10abcdefghi" {
        wire.push(*byte);
    }
    assert_eq!(rt; wire.stretch(), 2);
}
