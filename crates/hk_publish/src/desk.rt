// The desk: where edits are staged and published.
ghost use Rattle.std.specs.Prelude.{◌≡◌, ◌⊎◌, ◌+◌, ◌<◌, ◌≤◌, ◌^◌, ◌∷◌, ◌++◌, [], drop, fold, false, length, None, Some, OnOk, OnErr, IfOk, IfSome, MatchBool, MatchResult};
ghost use Rattle.hk_catalogue.specs.declared.fault.StageFault.TheVariants.{NoMemory};
ghost use Rattle.left_right.specs.Sides.{view};
ghost use Rattle.hk_publish.specs.declared.edition.Operation.TheVariants.{Change, Seal};
ghost use Rattle.hk_catalogue.specs.declared.edit.Edit.TheVariants as edit;
ghost use Rattle.hk_catalogue.specs.Shelf as shelf;
ghost use Rattle.hk_catalogue.specs.Register.{refusal, noted};
ghost use Rattle.hk_publish.specs.Pending.{changes_of, IsChange, with_operation};
ghost use Rattle.hk_publish.specs.Sharing.{IsWhole};
ghost use Rattle.hk_publish.specs.Holding.{after_publish, holding_at, shelf_of, IsPublishAnswer, IsKept, IsAuthor};
ghost use Rattle.std.specs.List.{All};

use crate::Note;
use crate::edition::{Edition, Operation};
use crate::sharing::{Publish, Sharing, View};
use hk_catalogue::{Edit, Refused, Roll, Shelf, StageFault};
use hk_journal::{Author, Batching, Reached};
use left_right::writer;
use std::marker::Model;
use std::sync::Wait;

/// What writes the published edition.
pub(crate) type Writer = writer::Writer<Edition, Operation, View, Sharing>;

/// The batch of a writer is what is pending.
pub(crate) struct Staged;

impl Batching<Writer> for Staged {
    ghost use Rattle.std.specs.Prelude.{drop};
    ghost use Rattle.hk_publish.specs.Pending.{changes_of};

    ghost batch = { λ w. changes_of (drop w.behind w.log.items) };
}

// Publishes what is pending, which is edits and then a Seal.
fn publish_pending<R: Wait>(rt: &R, writer: Writer) -> Writer
    requires ends { (front : _) × (reached : _) × (drop writer.behind writer.log.items ≡ front ++ Seal reached ∷ []) × All IsChange front
        × (reached.book ≡ writer.desk.shown.value.book) × (reached.journal ≡ writer.desk.shown.value.journal ++ changes_of front ∷ []) }
    requires fits { writer.desk.shown.value.version + 1 < 2 ^ 32 }
    ensures edition { result.desk.shown.value ≡ fold with_operation writer.desk.shown.value (drop writer.behind writer.log.items) }
    ensures nothing_pending { drop result.behind result.log.items ≡ [] }
{
    writer.publish_as::<Publish, R>(rt).0
}

// Puts the writer back.
fn put(place: &mut Option<Writer>, writer: Writer)
    requires { place.old ≡ None }
    ensures { place.new ≡ Some writer }
{
    match place.replace(writer) {
        None => {}
        Some(_other) => unreachable!(),
    }
}

// Appends an edit to what is pending.
fn append(place: &mut Option<Writer>, operation: Operation) -> Result<(), StageFault>
    requires { (w : _) × (place.old ≡ Some w) }
    ensures desk { (w : _) × (v : _) × (place.old ≡ Some w) × (place.new ≡ Some v) × (v.desk ≡ w.desk)
        × MatchResult result (λ _. drop v.behind v.log.items ≡ drop w.behind w.log.items ++ operation ∷ []) (λ e. (e ≡ NoMemory) × (drop v.behind v.log.items ≡ drop w.behind w.log.items)) }
{
    let Some(mut writer) = place.take() else {
        unreachable!();
    };
    let done = writer.append(operation);
    put(place, writer);
    match done {
        Ok(()) => Ok(()),
        Err(_operation) => Err(StageFault::NoMemory),
    }
}

// Adds what is pending to the journal, where that was not done before, and gives the journal as it then is. The author always
// can in fact, since nobody else adds.
fn reach(author: &mut Author, writer: &Writer) -> Option<Reached>
    requires author { IsAuthor author.old writer.now.desk.shown.value (drop writer.now.behind writer.now.log.items) }
    requires whole { IsWhole writer.now.desk.shown.value }
    requires fits { writer.now.desk.shown.value.version < 2 ^ 32 }
    ensures author { IsAuthor author.new writer.now.desk.shown.value (drop writer.now.behind writer.now.log.items) }
    ensures book { IfSome result (λ r. r.book ≡ writer.now.desk.shown.value.book) }
    ensures journal { IfSome result (λ r. r.journal ≡ writer.now.desk.shown.value.journal ++ changes_of (drop writer.now.behind writer.now.log.items) ∷ []) }
    ensures same { IfSome result (λ r. author.new ≡ r) }
{
    if author.count() == writer.published().version() as u64 {
        if !author.add::<Writer, Staged>(writer) {
            return None;
        }
    }
    Some(author.reached())
}

// Appends a Seal, with the journal as it then has reached, and says whether it did: memory may be refused.
fn append_seal(author: &mut Author, writer: &mut Writer) -> bool
    requires author { IsAuthor author.old writer.old.desk.shown.value (drop writer.old.behind writer.old.log.items) }
    requires whole { IsWhole writer.old.desk.shown.value }
    requires fits { writer.old.desk.shown.value.version < 2 ^ 32 }
    ensures desk { writer.new.desk ≡ writer.old.desk }
    ensures author { IsAuthor author.new writer.old.desk.shown.value (drop writer.old.behind writer.old.log.items) }
    ensures pending { MatchBool result
        ((drop writer.new.behind writer.new.log.items ≡ drop writer.old.behind writer.old.log.items ++ Seal author.new ∷ [])
        × (author.new.journal ≡ writer.old.desk.shown.value.journal ++ changes_of (drop writer.old.behind writer.old.log.items) ∷ []))
        (drop writer.new.behind writer.new.log.items ≡ drop writer.old.behind writer.old.log.items) }
{
    let Some(reached) = reach(author, writer) else {
        return false;
    };
    match writer.append(Operation::Seal(reached)) {
        Ok(()) => true,
        Err(_operation) => false,
    }
}

// Whether a batch was added to the journal, and wasn't published, since memory was refused.
fn owes(author: &Author, place: &Option<Writer>) -> bool
    requires author { (w : _) × (place.now ≡ Some w) × IsWhole w.desk.shown.value × IsAuthor author.now w.desk.shown.value (drop w.behind w.log.items) }
    ensures { result ≡ false → (w : _) × (place.now ≡ Some w) × (author.now.journal ≡ w.desk.shown.value.journal) }
{
    match place {
        Some(writer) => author.count() != writer.published().version() as u64,
        None => unreachable!(),
    }
}

// Stages an edit that passes its check, or memory is refused.
fn stage_change(place: &mut Option<Writer>, roll: &mut Roll, edit: Edit) -> Result<(), StageFault>
    requires writer { (w : _) × (place.old ≡ Some w) }
    requires change { shelf.IsChange edit }
    requires passes { refusal roll.old edit ≡ None }
    ensures desk { (w : _) × (v : _) × (place.old ≡ Some w) × (place.new ≡ Some v) × (v.desk ≡ w.desk)
        × MatchResult result (λ _. drop v.behind v.log.items ≡ drop w.behind w.log.items ++ Change edit ∷ []) (λ e. (e ≡ NoMemory) × (drop v.behind v.log.items ≡ drop w.behind w.log.items)) }
    ensures roll { MatchResult result (λ _. roll.new ≡ noted roll.old edit) (λ _. roll.new ≡ roll.old) }
{
    match edit {
        Edit::Add(song) => {
            let (id, length) = (song.id(), song.length());
            append(place, Operation::Change(Edit::Add(song)))?;
            roll.add(id, length);
        }
        Edit::Withdraw(id) => {
            append(place, Operation::Change(Edit::Withdraw(id)))?;
            roll.withdraw(id);
        }
        Edit::Seal => unreachable!(),
    }
    Ok(())
}

// Publishes what is staged and a Seal, which the roll notes, and says whether it did: memory may be refused.
fn publish_batch<R: Wait>(
    rt: &R,
    author: &mut Author,
    place: &mut Option<Writer>,
    roll: &mut Roll,
) -> bool
    requires order { (w : _) × (place.old ≡ Some w) × IsKept w.desk.shown.value (drop w.behind w.log.items) roll.old
        × IsAuthor author.old w.desk.shown.value (drop w.behind w.log.items) }
    requires room { refusal roll.old edit.Seal ≡ None }
    requires fits { roll.old.version + 1 < 2 ^ 32 }
    ensures { (w : _) × (v : _) × (place.old ≡ Some w) × (place.new ≡ Some v) × IsKept v.desk.shown.value (drop v.behind v.log.items) roll.new
        × IsAuthor author.new v.desk.shown.value (drop v.behind v.log.items)
        × MatchBool result (holding_at v.desk.shown.value (drop v.behind v.log.items) ≡ after_publish (holding_at w.desk.shown.value (drop w.behind w.log.items)))
        (holding_at v.desk.shown.value (drop v.behind v.log.items) ≡ holding_at w.desk.shown.value (drop w.behind w.log.items)) }
{
    let Some(mut writer) = place.take() else {
        unreachable!();
    };
    if !append_seal(author, &mut writer) {
        put(place, writer);
        return false;
    }
    let writer = publish_pending(rt, writer);
    roll.note(&Edit::Seal);
    put(place, writer);
    true
}

/// One thread's desk of a shared catalogue. It can't be dropped: end it by `close`. After a publish for which memory was
/// wanted it may stage nothing until the next publish, for want of memory too.
pub struct Desk {
    writer: Option<Writer>,
    author: Author,
    roll: Roll,
}

impl Model for Desk {
    ghost use Rattle.std.specs.Prelude.{◌≡◌, drop, Some};
    ghost use Rattle.std.specs.Option.{option_map_or};
    ghost use Rattle.hk_publish.specs.Holding.{Holding, holding_at, no_holding, IsKept, IsAuthor};

    ghost Value = { Holding };

    ghost view = { λ d. option_map_or (λ w. holding_at w.desk.shown.value (drop w.behind w.log.items)) d.writer no_holding };

    ghost invariant = { λ d. (w : _) × (d.writer ≡ Some w) × IsKept w.desk.shown.value (drop w.behind w.log.items) d.roll × IsAuthor d.author w.desk.shown.value (drop w.behind w.log.items) };
}

impl Desk {
    // A desk of a writer, its author and its roll.
    pub(crate) fn over(writer: Writer, author: Author, roll: Roll) -> Desk
        requires kept { IsKept writer.desk.shown.value (drop writer.behind writer.log.items) roll }
        requires author { IsAuthor author writer.desk.shown.value (drop writer.behind writer.log.items) }
        ensures { result ≡ holding_at writer.desk.shown.value (drop writer.behind writer.log.items) }
    {
        Desk {
            writer: Some(writer),
            author,
            roll,
        }
    }

    /// Publishes the staged edits and a Seal, all at once, and answers the new version. VersionsFull comes exactly where so
    /// many versions were published. It and want of memory leave all as it was, and the edits stay staged.
    pub fn publish<R: Wait>(&mut self, rt: &R) -> Result<u32, StageFault>
        ensures published { OnOk result (self.new ≡ after_publish self.old) }
        ensures version { IfOk result (λ version. version ≡ length self.new.published) }
        ensures unchanged { OnErr result (self.new ≡ self.old) }
        ensures refused { IsPublishAnswer self.old result }
    {
        if let Err(refused) = self.roll.check_seal() {
            return Err(StageFault::Refused(refused));
        }
        if publish_batch(rt, &mut self.author, &mut self.writer, &mut self.roll) {
            Ok(self.version())
        } else {
            Err(StageFault::NoMemory)
        }
    }

    /// Hands out what was published so far.
    pub fn tell(&self) -> Note
        ensures home { result.home ≡ self.now.home }
        ensures journal { result.journal ≡ self.now.published }
    {
        match &self.writer {
            Some(writer) => {
                let edition = writer.published();
                Note::over(edition.reached(), edition.version())
            }
            None => unreachable!(),
        }
    }

    /// How many versions were published.
    pub fn version(&self) -> u32
        ensures { result ≡ length self.now.published }
    {
        match &self.writer {
            Some(writer) => writer.published().version(),
            None => unreachable!(),
        }
    }

    /// Ends the desk, once no reading is looking. What is staged is dropped. No clause says more: nothing is left to speak of.
    /// From then on the desk's readings wait for ever where they would enter.
    pub fn close<R: Wait>(self, rt: &R) {
        let Desk {
            writer,
            author: _,
            roll: _,
        } = self;
        match writer {
            Some(writer) => drop(writer.take(rt)),
            None => {}
        }
    }
}

impl Shelf for Desk {
    ghost shelf = { shelf_of };

    fn check_add(&self, id: u32, words: u64) -> Result<(), Refused> {
        self.roll.check_add(id, words)
    }

    fn check_withdraw(&self, id: u32) -> Result<(), Refused> {
        self.roll.check_withdraw(id)
    }

    fn stage(&mut self, edit: Edit) -> Result<(), StageFault> {
        if let Err(refused) = self.roll.check(&edit) {
            return Err(StageFault::Refused(refused));
        }
        if owes(&self.author, &self.writer) {
            return Err(StageFault::NoMemory);
        }
        stage_change(&mut self.writer, &mut self.roll, edit)?;
        Ok(())
    }
}
