// The counts are worked by hand.
use crate::{errors, within};
use std::test::Fail;

// 62 words of twelve bits and 194 of eleven.
fn many_bits() -> [u32; 256] {
    let mut words = [0x7ff; 256];
    for j in 0..62usize {
        words[j] = 0xfff;
    }
    words
}

#[test]
fn each_bit_of_each_word_counts(rt: HostRuntime) -> Result<(), Fail> {
    assert_eq!(rt; errors(&[7; 256], &[7; 256]), 0);
    assert_eq!(rt; errors(&[0; 256], &[0xffffffff; 256]), 8192);
    assert_eq!(rt; errors(&[0x80000001; 256], &[0x00000003; 256]), 512);
    assert_eq!(rt; errors(&many_bits(), &[0; 256]), 62 * 12 + 194 * 11);
    Ok(())
}

#[test]
fn limit_is_within(rt: HostRuntime) -> Result<(), Fail> {
    assert_eq!(rt; within(&many_bits(), &[0; 256], 2878), Some(2878));
    assert_eq!(rt; within(&many_bits(), &[0; 256], 2877), None);
    assert_eq!(rt; within(&[5; 256], &[5; 256], 0), Some(0));
    Ok(())
}
