// Blocks against a few songs, by hand.
ghost use Rattle.std.specs.Prelude.{◌≡◌, ◌≤◌, ◌<◌, ◌^◌, IsTrue, IfOk};
ghost use Rattle.hk_block.specs.Ring.{is_full};

use crate::Alone;
use hk_base::{Match, NoMemory, Print, Steps};
use hk_block::{BlockRing, Looker, Scratch};
use hk_catalogue::{Edit, Refused, Shelf, StageFault};
use hk_table::SongBlock;
use std::alloc::{AllocError, Global};
use std::marker::Brand;
use std::sync::ledger::{Blank, Ledger};
use std::test::Fail;

fn ring_of(alloc: Global, prints: &[Print; 256]) -> Result<BlockRing, NoMemory>
    ensures { IfOk result (λ ring. IsTrue (is_full ring)) }
{
    let mut ring = BlockRing::new(alloc, 1)?;
    for n in 0..256usize {
        ring.push(prints[n]);
    }
    Ok(ring)
}

// Prints of one word again and again.
fn even_prints(word: u32) -> [Print; 256] {
    [Print { word, mask: 0 }; 256]
}

// A first print of zero. So many of the others have twelve bits, and the rest eleven.
fn prints_with(twelve: usize) -> [Print; 256] {
    let mut prints = even_prints(0);
    for n in 1..256usize {
        let word = if n <= twelve { 0xfff } else { 0x7ff };
        prints[n] = Print { word, mask: 0 };
    }
    prints
}

// Prints of the words 0 to 255 with the highest bit flipped, which is weak in print 9 as this mask says.
fn flipped_prints(mask: u32) -> [Print; 256] {
    let mut prints = even_prints(0);
    for n in 0..256usize {
        prints[n] = Print {
            word: n as u32 ^ 0x80000000,
            mask: if n == 9 { mask } else { 0 },
        };
    }
    prints
}

// A song of one word again and again.
fn even_song(alloc: Global, id: u32, word: u32, length: usize) -> Result<SongBlock, AllocError>
    requires long { 256 ≤ length }
    requires short { length ≤ 16777216 }
{
    Ok(SongBlock::new(id, vec![in alloc; word; length]?))
}

// Song 7 of the words 0 to 255.
fn rising_song(alloc: Global) -> Result<SongBlock, AllocError> {
    let words: Vec<u32> = (0..256u32).collect(alloc)?;
    if words.len() == 256 {
        Ok(SongBlock::new(7, words))
    } else {
        even_song(alloc, 0, 0, 256)
    }
}

// A catalogue for one thread, and room for all that a look in it finds.
#[derive(Drop)]
struct Bench {
    alone: Alone,
    scratch: Scratch,
    ghost room: { alone.limits.positions ≤ scratch.room },
}

impl Bench {
    // A bench for so many songs, words of all songs, and versions.
    fn new(alloc: Global, songs: u32, positions: u32, versions: u32) -> Result<Bench, NoMemory>
        requires enough { 256 ≤ positions }
        requires most { positions ≤ 2 ^ 24 }
        requires some { 1 ≤ songs }
        requires few { songs ≤ 65536 }
    {
        Ok(Bench {
            alone: Alone::new(alloc, songs, positions, versions)?,
            scratch: Scratch::new(alloc, positions)?,
        })
    }

    // Stages a song, and tells whether it is staged.
    fn adds(&mut self, song: SongBlock) -> bool {
        self.alone.stage(Edit::Add(song)).is_ok()
    }

    fn withdraw(&mut self, id: u32) -> Result<(), StageFault> {
        self.alone.stage(Edit::Withdraw(id))
    }

    fn publish(&mut self) -> Result<u32, Refused> {
        self.alone.publish()
    }

    // Looks for a ring's prints, and tells the version.
    fn look(&mut self, ring: &BlockRing) -> u32
        requires full { IsTrue (is_full ring.now) }
    {
        looked_up::<Brand>(&mut self.alone, ring, &mut self.scratch, Blank::new(1))
    }

    // What the last look found.
    fn found(&self) -> &[Match] {
        self.scratch.matches()
    }
}

fn looked_up<L: Ledger>(
    alone: &mut Alone,
    ring: &BlockRing,
    scratch: &mut Scratch,
    blank: Blank,
) -> u32
    requires name { blank.name ≡ L.name }
    requires parts { blank.parts ≡ L.parts }
    requires some { 0 < L.parts }
    requires full { IsTrue (is_full ring.now) }
    requires space { alone.old.limits.positions ≤ scratch.old.room }
    ensures room { scratch.new.room ≡ scratch.old.room }
    ensures same { alone.new ≡ alone.old }
{
    let mut steps: Steps<L> = Steps::new(blank);
    alone.look(ring, scratch, &mut steps)
}

#[test]
fn song_is_found_up_to_2867_errors_from_its_publish_on(rt: HostRuntime) -> Result<(), Fail> {
    let mut bench = Bench::new(rt.alloc(), 2, 300, 1)?;
    let near = ring_of(rt.alloc(), &prints_with(62))?;
    let far = ring_of(rt.alloc(), &prints_with(63))?;
    let zeros = even_song(rt.alloc(), 7, 0, 256)?;
    assert!(rt; bench.adds(zeros));
    assert_eq!(rt;
        bench.withdraw(8),
        Err(StageFault::Refused(Refused::Unknown(8)))
    );
    assert_eq!(rt; bench.look(&near), 0);
    assert!(rt; bench.found().is_empty());
    assert_eq!(rt; bench.publish(), Ok(1));
    assert_eq!(rt; bench.publish(), Err(Refused::VersionsFull(1)));
    assert_eq!(rt; bench.look(&near), 1);
    let found = Match {
        id: 7,
        start: 0,
        errors: 2867,
    };
    assert_eq!(rt; bench.found(), [found].as_slice());
    assert_eq!(rt; bench.look(&far), 1);
    assert!(rt; bench.found().is_empty());
    Ok(())
}

#[test]
fn weak_bits_let_a_song_be_found(rt: HostRuntime) -> Result<(), Fail> {
    let mut bench = Bench::new(rt.alloc(), 1, 256, 1)?;
    let strong = ring_of(rt.alloc(), &flipped_prints(0))?;
    let weak = ring_of(rt.alloc(), &flipped_prints(0x80000000))?;
    let song = rising_song(rt.alloc())?;
    assert!(rt; bench.adds(song));
    assert_eq!(rt; bench.publish(), Ok(1));
    assert_eq!(rt; bench.look(&strong), 1);
    assert!(rt; bench.found().is_empty());
    assert_eq!(rt; bench.look(&weak), 1);
    let found = Match {
        id: 7,
        start: 0,
        errors: 256,
    };
    assert_eq!(rt; bench.found(), [found].as_slice());
    Ok(())
}

#[test]
fn each_of_45_starts_is_listed_once(rt: HostRuntime) -> Result<(), Fail> {
    let mut bench = Bench::new(rt.alloc(), 3, 900, 1)?;
    let zeros = ring_of(rt.alloc(), &even_prints(0))?;
    let last = even_song(rt.alloc(), 9, 1, 256)?;
    let first = even_song(rt.alloc(), 3, 0, 300)?;
    assert!(rt; bench.adds(last));
    assert!(rt; bench.adds(first));
    assert_eq!(rt; bench.publish(), Ok(1));
    assert_eq!(rt; bench.look(&zeros), 1);
    let starts: Vec<Match> = (0..45u32)
        .map(|start| Match {
            id: 3,
            start,
            errors: 0,
        })
        .collect(rt.alloc())?;
    assert_eq!(rt; bench.found(), starts.as_slice());
    Ok(())
}

// Publishes song 7 of zeros and song 8, which fill all room. Whether all answers are right.
fn fills(alloc: Global, bench: &mut Bench) -> Result<bool, AllocError> {
    let zeros = even_song(alloc, 7, 0, 256)?;
    let others = even_song(alloc, 8, 0x55555555, 256)?;
    let first = bench.adds(zeros);
    let tight = bench.alone.check_add(8, 257) == Err(Refused::PositionsFull(256, 257));
    let second = bench.adds(others);
    let full = bench.alone.check_add(9, 256) == Err(Refused::SongsFull(2));
    let published = bench.publish() == Ok(1);
    Ok(first && tight && second && full && published)
}

// Stages that both songs go, and that song 7 comes with all words that there may be. Whether all answers are right.
fn stages_another(alloc: Global, bench: &mut Bench) -> Result<bool, AllocError> {
    let ones = even_song(alloc, 7, 0xffffffff, 512)?;
    let first = bench.withdraw(7) == Ok(());
    let gone = bench.alone.check_withdraw(7) == Err(Refused::Unknown(7));
    let second = bench.withdraw(8) == Ok(());
    let short = bench.alone.check_add(7, 255) == Err(Refused::Short(255));
    let free = bench.alone.check_add(7, 513) == Err(Refused::PositionsFull(512, 513));
    let again = bench.adds(ones);
    let there = bench.alone.check_add(7, 255) == Err(Refused::Duplicate(7));
    Ok(first && gone && second && short && free && again && there)
}

#[test]
fn song_goes_and_its_id_comes_again_in_one_batch(rt: HostRuntime) -> Result<(), Fail> {
    let mut bench = Bench::new(rt.alloc(), 2, 512, 2)?;
    let ones = ring_of(rt.alloc(), &even_prints(0xffffffff))?;
    assert!(rt; fills(rt.alloc(), &mut bench)?);
    assert!(rt; stages_another(rt.alloc(), &mut bench)?);
    assert_eq!(rt; bench.look(&ones), 1);
    assert!(rt; bench.found().is_empty());
    assert_eq!(rt; bench.publish(), Ok(2));
    assert_eq!(rt; bench.look(&ones), 2);
    assert_eq!(rt; bench.found().len(), 257);
    assert_eq!(rt; bench.publish(), Err(Refused::VersionsFull(2)));
    assert_eq!(rt; bench.alone.version(), 2);
    Ok(())
}

#[test]
fn one_song_may_have_all_words(rt: HostRuntime) -> Result<(), AllocError> {
    let Ok(mut alone) = Alone::new(rt.alloc(), 65536, 16777216, 4294967295) else {
        panic!(rt; "no memory");
    };
    let song = even_song(rt.alloc(), 1, 0, 16777216)?;
    assert_eq!(rt; alone.stage(Edit::Add(song)), Ok(()));
    assert_eq!(rt;
        alone.check_add(2, 256),
        Err(Refused::PositionsFull(0, 256))
    );
    assert_eq!(rt; alone.publish(), Ok(1));
    assert_eq!(rt; alone.stage(Edit::Withdraw(1)), Ok(()));
    assert_eq!(rt; alone.check_add(2, 16777216), Ok(()));
    assert_eq!(rt; alone.publish(), Ok(2));
    Ok(())
}
