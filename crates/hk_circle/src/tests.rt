// The expected numbers are those that tools/sound_vectors.py prints.
use crate::Circle;
use std::test::Fail;

// A number that tells tables apart.
fn add(digest: u64, number: i64) -> u64 {
    digest
        .wrapping_mul(6364136223846793005)
        .wrapping_add(number.cast_unsigned())
}

#[test]
fn whole_tables(rt: HostRuntime) -> Result<(), Fail> {
    let circle = Circle::new(rt.alloc())?;
    let mut cosines = 0;
    let mut sines = 0;
    let mut window = 0;
    for k in 0..2048 {
        cosines = add(cosines, circle.cos(k));
        sines = add(sines, circle.sin(k));
        window = add(window, circle.hann(k));
    }
    assert_eq!(rt; cosines, 11676398754481831936);
    assert_eq!(rt; sines, 9462743082979393536);
    assert_eq!(rt; window, 16019708918317637588);
    Ok(())
}

#[test]
fn chosen_places(rt: HostRuntime) -> Result<(), Fail> {
    let circle = Circle::new(rt.alloc())?;
    let places = [
        (0, 32768, 0, 0),
        (1, 32768, 101, 0),
        (2, 32767, 201, 0),
        (3, 32767, 302, 0),
        (100, 31238, 9896, 765),
        (170, 28411, 16326, 2178),
        (255, 23241, 23099, 4763),
        (256, 23170, 23170, 4799),
        (257, 23099, 23241, 4834),
        (341, 16413, 28361, 8177),
        (511, 101, 32768, 16333),
        (512, 0, 32768, 16384),
        (513, -101, 32768, 16434),
        (777, -23801, 22522, 28284),
        (1024, -32768, 0, 32768),
        (1025, -32768, -101, 32768),
        (1536, 0, -32768, 16384),
        (1537, 101, -32768, 16333),
        (1999, 32398, -4907, 185),
        (2047, 32768, -101, 0),
    ];
    for (k, cos, sin, window) in places {
        if k < 2048 {
            assert_eq!(rt; circle.cos(k), cos, "cosine of {k}");
            assert_eq!(rt; circle.sin(k), sin, "sine of {k}");
            assert_eq!(rt; circle.hann(k), window, "window at {k}");
        }
    }
    Ok(())
}
