// What makes a desk and its readings.
ghost use Rattle.std.specs.Prelude.{◌≡◌, ◌≤◌, ◌^◌, [], drop, vec_len, IfOk, Some};
ghost use Rattle.std.specs.List.{All};
ghost use Rattle.left_right.specs.Sides.{view};
ghost use Rattle.hk_spec_matching.specs.Catalogue.{Limits};
ghost use Rattle.hk_publish.specs.Edition.{new_edition};
ghost use Rattle.hk_publish.specs.Views.{new_view};
ghost use Rattle.hk_publish.specs.Sharing.{Meets, origin_of};
ghost use Rattle.hk_publish.specs.Known.{new_known, home_of};
ghost use Rattle.hk_publish.specs.Holding.{new_holding};

use crate::desk::Writer;
use crate::edition::Edition;
use crate::sharing::Meet;
use crate::visitor::Visitor;
use crate::{Desk, Reading};
use hk_base::NoMemory;
use hk_catalogue::Roll;
use hk_journal::Author;
use std::alloc::Global;
use std::sync::Wait;

// A writer of no song, which knows the origin.
fn open<R: Wait>(
    rt: &R,
    alloc: Global,
    first: Edition,
    second: Edition,
    readers: u8,
) -> Result<Writer, NoMemory>
    requires alike { second ≡ first }
    requires new { first ≡ new_edition first.limits first.book }
    requires one { 1 ≤ readers }
    ensures edition { IfOk result (λ writer. writer.desk.shown.value ≡ first) }
    ensures nothing_pending { IfOk result (λ writer. drop writer.behind writer.log.items ≡ []) }
    ensures view { IfOk result (λ writer. Meets new_view first (view writer.desk.place)) }
{
    match Writer::new(alloc, first, second, readers as usize) {
        Ok(writer) => Ok(writer.publish_as::<Meet, R>(rt).0),
        Err(_) => Err(NoMemory),
    }
}

// So many readings, each with a runtime value of its own.
fn seat_all<R: Wait + Clone + Drop>(
    rt: &R,
    alloc: Global,
    writer: &mut Writer,
    readers: u8,
) -> Result<Vec<Reading<R>>, NoMemory>
    requires origin { (view writer.old.desk.place) ≡ record new_view { origin = Some (origin_of writer.old.desk.shown.value) } }
    requires empty { writer.old.desk.shown.value.journal ≡ [] }
    ensures count { IfOk result (λ readings. vec_len readings ≡ readers) }
    ensures fresh { IfOk result (λ readings. All (λ reading. reading ≡ new_known (home_of writer.old.desk.shown.value.book) writer.old.desk.shown.value.limits) readings.items) }
    ensures same_view { view writer.new.desk.place ≡ view writer.old.desk.place }
    ensures same_edition { writer.new.desk.shown ≡ writer.old.desk.shown }
    ensures same_pending { drop writer.new.behind writer.new.log.items ≡ drop writer.old.behind writer.old.log.items }
{
    let Ok(mut readings) = Vec::with_capacity(alloc, readers as usize) else {
        return Err(NoMemory);
    };
    for n in 0..readers {
        let _ = n;
        let Ok(own) = rt.clone() else {
            return Err(NoMemory);
        };
        readings.push_reserved(Reading::over(Visitor::of(rt, writer), own));
    }
    Ok(readings)
}

/// A desk and so many readings of a catalogue of no song, with room for 1 to 65536 songs of 256 to 2^24 words in all. It takes
/// all memory that a look needs.
pub fn start<R: Wait + Clone + Send + Drop>(
    rt: &R,
    alloc: Global,
    songs: u32,
    positions: u32,
    versions: u32,
    readers: u8,
) -> Result<(Desk, Vec<Reading<R>>), NoMemory>
    requires enough { 256 ≤ positions }
    requires most { positions ≤ 2 ^ 24 }
    requires some { 1 ≤ songs }
    requires few { songs ≤ 65536 }
    requires one { 1 ≤ readers }
    requires at_most { readers ≤ 64 }
    ensures desk { IfOk result (λ t. t.0 ≡ new_holding t.0.home (record { songs = songs; positions = positions; versions = versions })) }
    ensures count { IfOk result (λ t. vec_len t.1 ≡ readers) }
    ensures readings { IfOk result (λ t. All (λ reading. reading ≡ new_known t.0.home t.0.limits) t.1.items) }
{
    let author = Author::new();
    let first = Edition::new(alloc, songs, positions, versions, author.reached())?;
    let second = Edition::new(alloc, songs, positions, versions, author.reached())?;
    let roll = Roll::new(alloc, songs, positions, versions)?;
    let mut writer = open(rt, alloc, first, second, readers)?;
    match seat_all(rt, alloc, &mut writer, readers) {
        Ok(readings) => Ok((Desk::over(writer, author, roll), readings)),
        Err(NoMemory) => {
            drop(writer.take(rt));
            Err(NoMemory)
        }
    }
}
