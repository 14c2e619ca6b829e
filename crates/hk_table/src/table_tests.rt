// Small tables by hand, and the greatest one.
ghost use Rattle.std.specs.Prelude.{◌≡◌, ◌<◌};

use crate::{SongBlock, Steps, Table};
use std::marker::Brand;
use std::sync::ledger::{Blank, Ledger};
use std::test::Fail;

// Whether a walk for a word gives these positions of a slot and no other place: every `step`th from `first` on, below 256.
fn gives<L: Ledger>(
    table: &Table,
    word: u32,
    slot: u32,
    first: usize,
    step: usize,
    blank: Blank,
) -> bool
    requires name { blank.name ≡ L.name }
    requires parts { blank.parts ≡ L.parts }
    requires some { 0 < L.parts }
    requires step { 0 < step }
{
    let mut steps: Steps<L> = Steps::new(blank);
    let mut seen = [false; 256];
    let mut walk = table.walk(word);
    while let Some(place) = walk.advance(&mut steps) {
        let pos = place.pos as usize;
        if place.slot != slot || pos >= 256 || seen[pos] {
            return false;
        }
        seen[pos] = true;
    }
    for pos in 0..256 {
        if seen[pos] != (pos >= first && (pos - first) % step == 0) {
            return false;
        }
    }
    true
}

// Whether a walk for a word gives no place.
fn gives_none<L: Ledger>(table: &Table, word: u32, blank: Blank) -> bool
    requires name { blank.name ≡ L.name }
    requires parts { blank.parts ≡ L.parts }
    requires some { 0 < L.parts }
{
    let mut steps: Steps<L> = Steps::new(blank);
    table.walk(word).advance(&mut steps).is_none()
}

#[test]
fn places_come_and_go(rt: HostRuntime) -> Result<(), Fail> {
    let Ok(mut table) = Table::new(rt.alloc(), 512, 2) else {
        panic!(rt; "no memory");
    };
    let zeros = vec![in rt.alloc(); 0; 256]?;
    let ones = vec![in rt.alloc(); 1; 256]?;
    table.insert(0, &SongBlock::new(7, zeros));
    table.insert(1, &SongBlock::new(8, ones));
    assert_eq!(rt; table.spare(), 0);
    assert!(rt; gives::<Brand>(&table, 0, 0, 0, 1, Blank::new(1)));
    table.remove(0);
    assert_eq!(rt; table.spare(), 256);
    assert!(rt; gives_none::<Brand>(&table, 0, Blank::new(1)));
    assert!(rt; gives::<Brand>(&table, 1, 1, 0, 1, Blank::new(1)));
    Ok(())
}

#[test]
fn words_of_one_bucket_are_told_apart(rt: HostRuntime) -> Result<(), Fail> {
    let Ok(mut table) = Table::new(rt.alloc(), 512, 2) else {
        panic!(rt; "no memory");
    };
    // The multiples of 0 and of this word have the same upper nine bits.
    let word = 233;
    let mut mixed = vec![in rt.alloc(); 0; 256]?;
    for pos in 0..128 {
        mixed[2 * pos + 1] = word;
    }
    table.insert(1, &SongBlock::new(7, mixed));
    assert!(rt; gives::<Brand>(&table, 0, 1, 0, 2, Blank::new(1)));
    assert!(rt; gives::<Brand>(&table, word, 1, 1, 2, Blank::new(1)));
    table.remove(1);
    assert!(rt; gives_none::<Brand>(&table, 0, Blank::new(1)));
    assert!(rt; gives_none::<Brand>(&table, word, Blank::new(1)));
    Ok(())
}

#[test]
fn most_room_of_a_table_is_taken_at_once(rt: HostRuntime) -> Result<(), Fail> {
    let Ok(table) = Table::new(rt.alloc(), 16777216, 65536) else {
        panic!(rt; "no memory");
    };
    assert_eq!(rt; table.spare(), 16777216);
    assert!(rt; gives_none::<Brand>(&table, 4294967295, Blank::new(1)));
    Ok(())
}
