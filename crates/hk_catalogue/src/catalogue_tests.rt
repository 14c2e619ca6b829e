// Small catalogues by hand, and the greatest one.
ghost use Rattle.std.specs.Prelude.{◌≡◌, ◌≤◌, ◌<◌};

use crate::{Catalogue, Edit};
use hk_base::Steps;
use hk_table::{Song, SongBlock};
use std::alloc::{AllocError, Global};
use std::marker::Brand;
use std::sync::ledger::{Blank, Ledger};

fn adding(alloc: Global, id: u32, word: u32, length: usize) -> Result<Edit, AllocError>
    requires long { 256 ≤ length }
    requires short { length ≤ 1000 }
{
    Ok(Edit::Add(SongBlock::new(id, vec![in alloc; word; length]?)))
}

// Whether a song has this id and so many words, of which the first and the last 256 are all `word`.
fn is_song<L: Ledger>(song: &Song<'_>, is: (u32, u32, u32), blank: Blank) -> bool
    requires name { blank.name ≡ L.name }
    requires parts { blank.parts ≡ L.parts }
    requires some { 0 < L.parts }
{
    let (id, word, length) = is;
    let last_start = song.length() - 256;
    let mut steps: Steps<L> = Steps::new(blank);
    let mut first = [0; 256];
    let mut last = [0; 256];
    song.window(0, &mut first, &mut steps);
    song.window(last_start, &mut last, &mut steps);
    song.id() == id && song.length() == length && first == [word; 256] && last == [word; 256]
}

#[test]
fn slots_and_words_are_used_again(rt: HostRuntime) -> Result<(), AllocError> {
    let Ok(mut catalogue) = Catalogue::new(rt.alloc(), 3, 900) else {
        panic!(rt; "no memory");
    };
    // Each row is an edit, which adds a song of so many words or, with 0 words, withdraws one; and then the songs that
    // are there, with an id of 0 for none.
    let none = (0, 0, 0);
    let rows = [
        ((5, 1, 256), [(5, 1, 256), none, none]),
        ((8, 2, 344), [(5, 1, 256), (8, 2, 344), none]),
        ((2, 3, 301), [(5, 1, 256), (8, 2, 344), none]),
        ((2, 3, 300), [(2, 3, 300), (5, 1, 256), (8, 2, 344)]),
        ((9, 4, 256), [(2, 3, 300), (5, 1, 256), (8, 2, 344)]),
        ((5, 0, 0), [(2, 3, 300), (8, 2, 344), none]),
        ((5, 0, 0), [(2, 3, 300), (8, 2, 344), none]),
        ((8, 5, 256), [(2, 3, 300), (8, 2, 344), none]),
        ((9, 6, 257), [(2, 3, 300), (8, 2, 344), none]),
        ((9, 6, 256), [(2, 3, 300), (8, 2, 344), (9, 6, 256)]),
        ((8, 0, 0), [(2, 3, 300), (9, 6, 256), none]),
        ((8, 7, 344), [(2, 3, 300), (8, 7, 344), (9, 6, 256)]),
        ((2, 0, 0), [(8, 7, 344), (9, 6, 256), none]),
        ((9, 0, 0), [(8, 7, 344), none, none]),
        ((8, 0, 0), [none, none, none]),
        ((1, 8, 901), [none, none, none]),
        ((1, 8, 900), [(1, 8, 900), none, none]),
    ];
    for (row, (edit, songs)) in rows.iter().enumerate() {
        let (id, word, length) = *edit;
        if 256 <= length && length <= 1000 {
            catalogue.absorb(&adding(rt.alloc(), id, word, length)?);
        } else {
            catalogue.absorb(&Edit::Withdraw(id));
        }
        let mut count = 0;
        for song in songs.iter() {
            if song.0 != 0 {
                assert!(rt; count < catalogue.count(), "in row {row}");
                assert!(rt;
                    is_song::<Brand>(&catalogue.nth(count), *song, Blank::new(1)),
                    "in row {row}"
                );
                count += 1;
            }
        }
        assert_eq!(rt; catalogue.count(), count, "in row {row}");
    }
    Ok(())
}

#[test]
fn songs_are_found_in_their_slots(rt: HostRuntime) -> Result<(), AllocError> {
    let Ok(mut catalogue) = Catalogue::new(rt.alloc(), 2, 600) else {
        panic!(rt; "no memory");
    };
    catalogue.absorb(&adding(rt.alloc(), 7, 1, 300)?);
    catalogue.absorb(&Edit::Withdraw(7));
    catalogue.absorb(&adding(rt.alloc(), 7, 2, 256)?);
    catalogue.absorb(&adding(rt.alloc(), 3, 3, 344)?);
    assert!(rt; catalogue.find(5).is_none());
    let Some(slot) = catalogue.find(7) else {
        panic!(rt; "no song");
    };
    let Some(song) = catalogue.song(slot) else {
        panic!(rt; "no song");
    };
    assert!(rt; is_song::<Brand>(&song, (7, 2, 256), Blank::new(1)));
    assert!(rt; catalogue.song(2).is_none());
    assert_eq!(rt; catalogue.version(), 0);
    catalogue.absorb(&Edit::Seal);
    catalogue.absorb(&Edit::Seal);
    assert_eq!(rt; catalogue.version(), 2);
    Ok(())
}

// How many places of a word a walk gives, all of them in this slot; none where one is in another.
fn places_in<L: Ledger>(catalogue: &Catalogue, word: u32, slot: u32, blank: Blank) -> u32
    requires name { blank.name ≡ L.name }
    requires parts { blank.parts ≡ L.parts }
    requires some { 0 < L.parts }
{
    let mut steps: Steps<L> = Steps::new(blank);
    let mut count = 0u32;
    let mut walk = catalogue.walk(word);
    while let Some(place) = walk.advance(&mut steps) {
        if place.slot != slot {
            return 0;
        }
        count = count.saturating_add(1);
    }
    count
}

#[test]
fn words_are_found_where_their_songs_are(rt: HostRuntime) -> Result<(), AllocError> {
    let Ok(mut catalogue) = Catalogue::new(rt.alloc(), 2, 600) else {
        panic!(rt; "no memory");
    };
    catalogue.absorb(&adding(rt.alloc(), 7, 5, 256)?);
    catalogue.absorb(&adding(rt.alloc(), 3, 6, 344)?);
    catalogue.absorb(&adding(rt.alloc(), 7, 6, 256)?);
    let Some(slot) = catalogue.find(7) else {
        panic!(rt; "no song");
    };
    let Some(other) = catalogue.find(3) else {
        panic!(rt; "no song");
    };
    assert_eq!(rt; places_in::<Brand>(&catalogue, 5, slot, Blank::new(1)), 256);
    assert_eq!(rt;
        places_in::<Brand>(&catalogue, 6, other, Blank::new(1)),
        344
    );
    catalogue.absorb(&Edit::Withdraw(7));
    assert_eq!(rt; places_in::<Brand>(&catalogue, 5, slot, Blank::new(1)), 0);
    assert_eq!(rt;
        places_in::<Brand>(&catalogue, 6, other, Blank::new(1)),
        344
    );
    Ok(())
}

#[test]
fn all_slots_and_all_words_are_used(rt: HostRuntime) -> Result<(), AllocError> {
    let Ok(mut catalogue) = Catalogue::new(rt.alloc(), 65536, 16777216) else {
        panic!(rt; "no memory");
    };
    for id in 0..65536u32 {
        catalogue.absorb(&adding(rt.alloc(), id, id, 256)?);
    }
    assert_eq!(rt; catalogue.count(), 65536);
    catalogue.absorb(&adding(rt.alloc(), 65536, 7, 256)?);
    assert!(rt; catalogue.find(65536).is_none());
    catalogue.absorb(&Edit::Withdraw(0));
    catalogue.absorb(&adding(rt.alloc(), 65536, 7, 256)?);
    assert!(rt; catalogue.find(65536).is_some());
    Ok(())
}
