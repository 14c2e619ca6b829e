// The expected masks and subsets are worked by hand from the definitions.
use crate::{Submasks, weakest};
use std::test::Fail;

#[test]
fn silence_marks_the_lowest_bits(rt: HostRuntime) -> Result<(), Fail> {
    assert_eq!(rt; weakest(&[0; 32], 4), 0x0000_000f);
    assert_eq!(rt; weakest(&[0; 32], 0), 0);
    Ok(())
}

#[test]
fn subsets_rise_from_the_empty_one(rt: HostRuntime) -> Result<(), Fail> {
    let highest_and_lowest: Vec<u32> = Submasks::new(0x8000_0001).collect(rt.alloc())?;
    assert_eq!(rt;
        highest_and_lowest.as_slice(),
        [0, 1, 0x8000_0000, 0x8000_0001].as_slice()
    );
    let empty: Vec<u32> = Submasks::new(0).collect(rt.alloc())?;
    assert_eq!(rt; empty.as_slice(), [0].as_slice());
    Ok(())
}
