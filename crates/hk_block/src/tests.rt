// Small cases by hand.
use crate::{BlockRing, Match, Print, Scratch};

fn found(id: u32, start: u32) -> Match {
    Match {
        id,
        start,
        errors: 0,
    }
}

// At a hop of 2 the prints number 256, 258 and 260 complete a block, and the last one begins at place 4.
#[test]
fn blocks_by_twos(rt: HostRuntime) {
    let Ok(mut ring) = BlockRing::new(rt.alloc(), 2) else {
        panic!(rt; "no memory");
    };
    let mut blocks = 0u32;
    for n in 0..260u32 {
        if ring.push(Print { word: n, mask: 0 }) {
            blocks += 1;
        }
    }
    assert_eq!(rt; blocks, 3);
    assert!(rt; ring.full());
    assert_eq!(rt; ring.first_word(), 4);
    assert_eq!(rt; ring.print_at(0).word, 4);
    assert_eq!(rt; ring.prints()[255].word, 259);
    ring.reset();
    assert!(rt; !ring.full());
}

// Two matches in their order, and room for two.
#[test]
fn matches_in_order(rt: HostRuntime) {
    let Ok(mut scratch) = Scratch::new(rt.alloc(), 2) else {
        panic!(rt; "no memory");
    };
    scratch.put(found(9, 1));
    scratch.put(found(7, 5));
    scratch.order();
    assert_eq!(rt; scratch.matches(), [found(7, 5), found(9, 1)].as_slice());
    scratch.clear();
    assert!(rt; scratch.matches().is_empty());
}
