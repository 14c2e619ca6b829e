use super::*;
use std::test::*;

#[test]
fn pieces_and_single_bytes_are_read_the_same(rt: HostRuntime) {
    let input = b"S\x01\0\x05abcdeO\0\x01xS\0\0\x02yz";
    let mut single = RecordReader::new(2, 100);
    let mut pieces = RecordReader::new(2, 100);
    let mut number = 9;
    let mut left: u64 = 0;
    let mut skipped = 0u64;
    for byte in input {
        let came = single.push(*byte);
        if left > 0 {
            left -= 1;
            assert_eq!(rt;
                came,
                Came::Station {
                    number,
                    byte: *byte
                }
            );
        } else {
            assert_eq!(rt; pieces.push(*byte), came);
            if let Some(stretch) = pieces.stretch() {
                pieces.skip(stretch.len);
                number = stretch.number;
                left = stretch.len;
                skipped = skipped.wrapping_add(stretch.len);
            }
        }
    }
    // Four bytes of the first record, and one of the last.
    assert_eq!(rt; skipped, 5);
    assert_eq!(rt; pieces.finish(), single.finish());
}

#[test]
fn a_stretch_ends_at_the_limit(rt: HostRuntime) {
    let mut reader = RecordReader::new(1, 6);
    for byte in b"S\0\0\x09a" {
        reader.push(*byte);
    }
    assert_eq!(rt; reader.stretch(), Some(Stretch { number: 0, len: 1 }));
}
