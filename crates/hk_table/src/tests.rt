// Songs put in, taken out and put in again, with the words that stand there compared.
ghost use Rattle.std.specs.Prelude.{◌≡◌, ◌≤◌, ◌<◌};

use crate::{SongBlock, SongStore, Steps};
use std::marker::Brand;
use std::sync::ledger::{Blank, Ledger};
use std::test::Fail;

// Whether a slot has the song with this id and so many words, of which the first and the last 256 are all `word`.
fn holds<L: Ledger>(
    store: &SongStore,
    slot: u32,
    id: u32,
    word: u32,
    length: u32,
    blank: Blank,
) -> bool
    requires name { blank.name ≡ L.name }
    requires parts { blank.parts ≡ L.parts }
    requires some { 0 < L.parts }
{
    let Some(song) = store.song(slot) else {
        return false;
    };
    let mut steps: Steps<L> = Steps::new(blank);
    let mut first = [0; 256];
    let mut last = [0; 256];
    song.window(0, &mut first, &mut steps);
    song.window(song.length() - 256, &mut last, &mut steps);
    song.id() == id && song.length() == length && first == [word; 256] && last == [word; 256]
}

#[test]
fn words_stay_while_others_come_and_go(rt: HostRuntime) -> Result<(), Fail> {
    let Ok(mut store) = SongStore::new(rt.alloc(), 900, 3) else {
        panic!(rt; "no memory");
    };
    let ones = vec![in rt.alloc(); 1; 256]?;
    let twos = vec![in rt.alloc(); 2; 300]?;
    let threes = vec![in rt.alloc(); 3; 344]?;
    let fours = vec![in rt.alloc(); 4; 300]?;
    store.put(0, &SongBlock::new(7, ones));
    store.put(2, &SongBlock::new(9, twos));
    store.put(1, &SongBlock::new(8, threes));
    assert_eq!(rt; store.spare(), 0);
    store.clear(2);
    assert!(rt; store.song(2).is_none());
    assert!(rt; store.song(3).is_none());
    assert_eq!(rt; store.spare(), 300);
    assert!(rt; holds::<Brand>(&store, 0, 7, 1, 256, Blank::new(1)));
    assert!(rt; holds::<Brand>(&store, 1, 8, 3, 344, Blank::new(1)));
    store.put(2, &SongBlock::new(7, fours));
    assert_eq!(rt; store.spare(), 0);
    store.clear(0);
    assert!(rt; store.song(0).is_none());
    assert!(rt; holds::<Brand>(&store, 1, 8, 3, 344, Blank::new(1)));
    assert!(rt; holds::<Brand>(&store, 2, 7, 4, 300, Blank::new(1)));
    let fives = vec![in rt.alloc(); 5; 256]?;
    store.put(0, &SongBlock::new(9, fives));
    assert!(rt; holds::<Brand>(&store, 0, 9, 5, 256, Blank::new(1)));
    assert!(rt; holds::<Brand>(&store, 1, 8, 3, 344, Blank::new(1)));
    assert!(rt; holds::<Brand>(&store, 2, 7, 4, 300, Blank::new(1)));
    Ok(())
}

#[test]
fn most_room_is_taken_at_once(rt: HostRuntime) -> Result<(), Fail> {
    let Ok(store) = SongStore::new(rt.alloc(), 16777216, 65536) else {
        panic!(rt; "no memory");
    };
    assert_eq!(rt; store.spare(), 16777216);
    assert!(rt; store.song(65535).is_none());
    Ok(())
}
