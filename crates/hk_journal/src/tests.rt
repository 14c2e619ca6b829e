// Small cases by hand.
use crate::{Author, Batching, compare};

struct Empty;

impl Batching<u32> for Empty {
    ghost use Rattle.std.specs.Prelude.{[]};

    ghost batch = { λ _. [] };
}

#[test]
fn each_batch_is_added_and_counted(rt: HostRuntime) {
    let mut author = Author::new();
    let none = author.count();
    let before = author.reached();
    let first = author.add::<u32, Empty>(&0);
    let one = author.count();
    let second = author.add::<u32, Empty>(&0);
    let after = author.reached().again();
    if first && second {
        compare(&before, &after);
    }
    assert_eq!(rt; (first, second), (true, true));
    assert_eq!(rt; (none, one, author.count()), (0, 1, 2));
}
