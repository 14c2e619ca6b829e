// The expected numbers are those that tools/sound_vectors.py prints.
use crate::Frames;
use hk_circle::Circle;
use std::test::Fail;

#[test]
fn frames_of_pseudo_random_samples(rt: HostRuntime) -> Result<(), Fail> {
    let circle = Circle::new(rt.alloc())?;
    let mut frames = Frames::new(rt.alloc())?;
    assert_eq!(rt; frames.missing(), 2048);
    let mut frame = [0; 2048];
    let mut state: u64 = 7;
    let mut count: u64 = 0;
    let mut digest: u64 = 0;
    for _ in 0..2303 {
        state = state
            .wrapping_mul(6364136223846793005)
            .wrapping_add(1442695040888963407);
        if frames.push((state >> 48) as i32 - 32768) {
            count = count.wrapping_add(1);
            frames.windowed(&circle, &mut frame);
            for sample in frame {
                digest = digest
                    .wrapping_mul(6364136223846793005)
                    .wrapping_add(sample.cast_unsigned());
            }
        }
    }
    assert_eq!(rt; count, 4);
    assert_eq!(rt; digest, 5028965893392636943);
    Ok(())
}
