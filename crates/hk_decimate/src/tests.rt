// The expected digests are those that tools/sound_vectors.py prints, the others are worked by hand.
ghost use Rattle.std.specs.Prelude.{◌≤◌};

use crate::Decimator;

#[test]
fn small_sums(rt: HostRuntime) {
    let mut by_two = Decimator::new(2);
    assert_eq!(rt; by_two.push(1), None);
    assert_eq!(rt; by_two.push(2), None);
    assert_eq!(rt; by_two.push(4), Some(2));
    by_two.reset();
    assert_eq!(rt; by_two.push(-1), None);
    assert_eq!(rt; by_two.push(-1), None);
    assert_eq!(rt; by_two.push(-1), Some(-1));
    let mut by_one = Decimator::new(1);
    assert_eq!(rt; by_one.push(-32768), Some(-32768));
    assert_eq!(rt; by_one.push(32767), Some(32767));
}

#[test]
fn pseudo_random_samples(rt: HostRuntime) {
    let wanted = [
        (1, 1000, 17695822736808916486),
        (2, 499, 12671428531667353190),
        (4, 249, 9250659163283922757),
        (8, 124, 9766904342787392411),
    ];
    for (factor, count, digest) in wanted {
        if 1 <= factor && factor <= 8 {
            assert_eq!(rt; decimation(factor), (count, digest), "by {factor}");
        }
    }
}

// How many samples are left of 1000, and their digest.
fn decimation(factor: u8) -> (u64, u64)
    requires some { 1 ≤ factor }
    requires few { factor ≤ 8 }
{
    let mut decimator = Decimator::new(factor);
    let mut state: u64 = 3;
    let mut count: u64 = 0;
    let mut digest: u64 = 0;
    for _ in 0..1000 {
        state = state
            .wrapping_mul(6364136223846793005)
            .wrapping_add(1442695040888963407);
        if let Some(y) = decimator.push((state >> 48) as i32 - 32768) {
            count = count.wrapping_add(1);
            digest = digest
                .wrapping_mul(6364136223846793005)
                .wrapping_add(i64::from(y).cast_unsigned());
        }
    }
    (count, digest)
}
