// The expected samples are worked by hand.
use crate::Pcm;

#[test]
fn one_channel(rt: HostRuntime) {
    let mut pcm = Pcm::new(1);
    assert_eq!(rt; pcm.push(0x34), None);
    assert_eq!(rt; pcm.push(0x12), Some(0x1234));
    assert_eq!(rt; pcm.push(0x00), None);
    assert_eq!(rt; pcm.push(0x80), Some(-32768));
}

#[test]
fn two_channels(rt: HostRuntime) {
    let mut pcm = Pcm::new(2);
    let bytes = [0xff, 0xff, 0x00, 0x00, 3, 0, 4, 0, 0x00, 0x80, 0x01, 0x80];
    let wanted = [
        None,
        None,
        None,
        Some(-1),
        None,
        None,
        None,
        Some(3),
        None,
        None,
        None,
        Some(-32768),
    ];
    for (byte, sample) in bytes.iter().zip(&wanted) {
        assert_eq!(rt; pcm.push(*byte), *sample);
    }
}

#[test]
fn reset_drops_the_rest(rt: HostRuntime) {
    let mut pcm = Pcm::new(2);
    assert_eq!(rt; pcm.push(7), None);
    assert_eq!(rt; pcm.push(7), None);
    pcm.reset();
    assert_eq!(rt; pcm.push(2), None);
    assert_eq!(rt; pcm.push(0), None);
    assert_eq!(rt; pcm.push(4), None);
    assert_eq!(rt; pcm.push(0), Some(3));
}

#[test]
fn a_whole_group_is_read_at_once(rt: HostRuntime) {
    let mut pcm = Pcm::new(2);
    assert_eq!(rt; pcm.group_size(), 4);
    assert!(rt; pcm.is_between_groups());
    if pcm.is_between_groups() {
        assert_eq!(rt; pcm.read_group(&[0xff, 0xff, 0x00, 0x00]), -1);
        assert_eq!(rt; pcm.read_group(&[3, 0, 4, 0]), 3);
    }
    assert_eq!(rt; pcm.push(7), None);
    assert!(rt; !pcm.is_between_groups());
}
