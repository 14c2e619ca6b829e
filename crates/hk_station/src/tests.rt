// Small streams by hand, against no songs. The expected lines are those of the worked examples.
ghost use Rattle.std.specs.Prelude.{◌≡◌, ◌<◌};

use crate::{End, NoMemory, Progress, Scratch, Station, Steps};
use hk_base::{MemorySink, Print, WireFault};
use hk_block::NoSongs;
use std::alloc::Global;
use std::marker::Brand;
use std::sync::ledger::{Blank, Ledger};
use std::test::Fail;

// The hellos of a stream of prints, and of one of sound.
const PRINTS: &[u8] = b"HKS1\x00\x01";

const SOUND: &[u8] = b"HKS1\x01\x01";

// 255 prints and 256 prints of the word 0, each in a packet.
const FEWER: &[&[u8]] = &[b"\x01\x07\xf8", &[0; 2040]];

const BLOCK: &[&[u8]] = &[b"\x01\x08\x00", &[0; 2048]];

const GAP: &[u8] = b"\x03\x00\x00";

const FENCE_OF_1: &[u8] = b"\x02\x00\x04\x00\x00\x00\x01";

// A station, its view and its log after some pieces, and what came of the last one.
#[derive(Drop)]
struct Run {
    station: Station,
    view: NoSongs,
    log: MemorySink,
    came: Progress,
}

// Station 3 is fed these pieces, with the catalogue at this version. Its log has room for so many bytes.
fn fed_in<L: Ledger>(
    alloc: Global,
    version: u32,
    room: u32,
    pieces: &[&[u8]],
    blank: Blank,
) -> Result<Run, NoMemory>
    requires name { blank.name ≡ L.name }
    requires parts { blank.parts ≡ L.parts }
    requires some { 0 < L.parts }
{
    let mut steps: Steps<L> = Steps::new(blank);
    let mut view = NoSongs {
        version,
        block: [Print { word: 1, mask: 0 }; 256],
    };
    let mut scratch = Scratch::new(alloc, 0)?;
    let mut log = MemorySink::new(alloc, room, Vec::new(alloc))?;
    let mut station = Station::new(alloc, 3, 4, 64, 50000)?;
    let mut came = Progress::Going;
    for piece in pieces {
        came = station.feed(*piece, &mut view, &mut scratch, &mut log, &mut steps);
    }
    Ok(Run {
        station,
        view,
        log,
        came,
    })
}

// The same, with a ledger of steps that no one reads.
fn fed(alloc: Global, version: u32, room: u32, pieces: &[&[u8]]) -> Result<Run, NoMemory> {
    fed_in::<Brand>(alloc, version, room, pieces, Blank::new(1))
}

#[test]
fn block_is_reported(rt: HostRuntime) -> Result<(), Fail> {
    let mut run = fed(rt.alloc(), 7, 100, &[PRINTS, BLOCK[0], BLOCK[1]])?;
    assert_eq!(rt; run.came, Progress::Going);
    assert_eq!(rt;
        run.log.written(),
        b"S 3 B 0 G 0 W 0 V 7: none\n".as_slice()
    );
    assert_eq!(rt; run.station.number(), 3);
    assert_eq!(rt; run.station.blocks(), 1);
    assert_eq!(rt; run.station.version(), 7);
    assert_eq!(rt; run.station.end(), None);
    assert_eq!(rt; run.station.finish(), End::Ended);
    assert_eq!(rt; run.station.stop_read(), End::Ended);
    Ok(())
}

#[test]
fn line_is_torn(rt: HostRuntime) -> Result<(), Fail> {
    let run = fed(
        rt.alloc(),
        7,
        8,
        &[PRINTS, BLOCK[0], BLOCK[1], BLOCK[0], BLOCK[1]],
    )?;
    assert_eq!(rt; run.came, Progress::Over(End::SinkFault));
    assert_eq!(rt; run.log.written(), b"S 3 B 0 ".as_slice());
    assert_eq!(rt; run.station.blocks(), 0);
    assert_eq!(rt; run.station.version(), 7);
    Ok(())
}

#[test]
fn gap_begins_a_segment(rt: HostRuntime) -> Result<(), Fail> {
    let run = fed(
        rt.alloc(),
        0,
        100,
        &[PRINTS, FEWER[0], FEWER[1], GAP, BLOCK[0], BLOCK[1]],
    )?;
    assert_eq!(rt; run.came, Progress::Going);
    assert_eq!(rt;
        run.log.written(),
        b"S 3 B 0 G 1 W 0 V 0: none\n".as_slice()
    );
    Ok(())
}

#[test]
fn fence_is_ahead_or_met(rt: HostRuntime) -> Result<(), Fail> {
    let ahead = fed(
        rt.alloc(),
        0,
        100,
        &[PRINTS, FENCE_OF_1, BLOCK[0], BLOCK[1]],
    )?;
    assert_eq!(rt; ahead.came, Progress::Over(End::FenceAhead(1, 0)));
    assert!(rt; ahead.log.written().is_empty());
    let mut met = fed(rt.alloc(), 1, 100, &[PRINTS, FENCE_OF_1])?;
    assert_eq!(rt; met.came, Progress::Going);
    assert_eq!(rt; met.station.version(), 1);
    assert_eq!(rt; met.station.stop_read(), End::ReadFault);
    assert_eq!(rt; met.station.stop_gate(), End::ReadFault);
    Ok(())
}

#[test]
fn faults_of_the_stream_end_it(rt: HostRuntime) -> Result<(), Fail> {
    let mut hello = fed(rt.alloc(), 0, 100, &[b"HKS9", BLOCK[0]])?;
    assert_eq!(rt;
        hello.came,
        Progress::Over(End::Wire(WireFault::BadHello(3)))
    );
    assert_eq!(rt; hello.station.finish(), End::Wire(WireFault::BadHello(3)));
    let mut cut = fed(rt.alloc(), 0, 100, &[PRINTS, BLOCK[0], b"\0\0"])?;
    assert_eq!(rt; cut.came, Progress::Going);
    assert_eq!(rt; cut.station.finish(), End::Wire(WireFault::Cut(11)));
    let mut gate = fed(rt.alloc(), 0, 100, &[PRINTS])?;
    assert_eq!(rt; gate.station.stop_gate(), End::GateFault);
    Ok(())
}

#[test]
fn silence_completes_a_block_at_its_last_byte(rt: HostRuntime) -> Result<(), Fail> {
    let four = Print {
        word: 0,
        mask: 0x0000_000f,
    };
    let early = fed(rt.alloc(), 7, 100, &[SOUND, b"\x01\x90\x00", &[0; 36863]])?;
    assert!(rt; early.log.written().is_empty());
    let run = fed(
        rt.alloc(),
        7,
        100,
        &[SOUND, b"\x01\x90\x00", &[0; 36863], b"\0"],
    )?;
    assert_eq!(rt;
        run.log.written(),
        b"S 3 B 0 G 0 W 0 V 7: none\n".as_slice()
    );
    assert!(rt; run.view.block.iter().all(|print| *print == four));
    Ok(())
}
