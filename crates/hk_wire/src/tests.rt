use super::*;
use std::test::*;

#[test]
fn pieces_and_single_bytes_of_a_packet_are_taken_the_same(rt: HostRuntime) {
    let bytes = b"\x01\0\x10abcdefghijklmnop";
    let mut single = LastPacket::new(LengthSize::Two);
    let mut pieces = LastPacket::new(LengthSize::Two);
    for byte in bytes {
        if single.count() < u64::MAX {
            single.push(*byte);
        }
    }
    for byte in &bytes[..12] {
        if pieces.count() < u64::MAX {
            pieces.push(*byte);
        }
    }
    if pieces.count() == 12 {
        pieces.skip(7);
    }
    assert_eq!(rt; pieces.count(), 19);
    assert_eq!(rt; pieces.count(), single.count());
    assert_eq!(rt; pieces.number(8), single.number(8));
    assert_eq!(rt; pieces.is_over(), single.is_over());
}

#[test]
fn bytes_taken_at_once_leave_as_much_room_as_single_ones(rt: HostRuntime) {
    let mut single = Passage::new(5);
    let mut pieces = Passage::new(5);
    for _ in 0..3 {
        if single.room() > 0 {
            single.advance();
        }
    }
    if pieces.room() >= 3 {
        pieces.advance_by(3);
    }
    assert_eq!(rt; pieces.room(), 2);
    assert_eq!(rt; pieces.taken(), single.taken());
}
