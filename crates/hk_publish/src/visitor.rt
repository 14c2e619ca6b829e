// Who visits the published edition. Nothing else holds a reader of it.
ghost use Rattle.std.specs.Prelude.{◌≡◌, [], drop, length, Some};
ghost use Rattle.crossbeam_utils.specs.Register.{Turns};
ghost use Rattle.left_right.specs.Sides.{view};
ghost use Rattle.hk_spec_matching.specs.Catalogue.{version};
ghost use Rattle.hk_catalogue.specs.Shelves.{songs_of};
ghost use Rattle.hk_publish.specs.Views.{new_view};
ghost use Rattle.hk_publish.specs.Sharing.{Keeps, origin_of, with_origin};
ghost use Rattle.hk_publish.specs.Known.{IsLook, CatchesUp, new_known, home_of};

use crate::desk::Writer;
use crate::edition::Edition;
use crate::sharing::{Catch, Enter, Greet, Sharing, Tell, View};
use crossbeam_utils::rule::Outcome;
use hk_catalogue::Catalogue;
use hk_journal::Reached;
use left_right::reader::{Reader, Reading};
use std::marker::Model;
use std::sync::Wait;

// A reader of the published edition that is not reading.
type Outside = Reader<Edition, View, Sharing>;

// A reader with the edition that it reads.
type Inside = Reading<Edition, View, Sharing>;

// Enters. A try that is refused changes nothing, and is made again.
fn enter_as<M: Outcome<Edition, View>, R: Wait>(rt: &R, reader: Outside) -> Inside
    requires rule { Turns Keeps reader.place.id (view reader.place) (λ x. x) M.then }
    ensures entered { M.then (view reader.place) result.part.value result.part.value (view result.place) }
{
    let mut reader = reader;
    for _ in rt.forever() {
        match reader.enter_as::<M>() {
            Ok(inside) => return inside,
            Err(back) => reader = back,
        }
    }
    unreachable!()
}

// A reader that knows the origin. A place that is refused is asked for again.
fn seat<R: Wait>(rt: &R, writer: &mut Writer) -> Outside
    ensures view { view result.place ≡ with_origin new_view (view writer.old.desk.place) }
    ensures same_view { view writer.new.desk.place ≡ view writer.old.desk.place }
    ensures same_edition { writer.new.desk.shown ≡ writer.old.desk.shown }
    ensures same_pending { drop writer.new.behind writer.new.log.items ≡ drop writer.old.behind writer.old.log.items }
{
    for _ in rt.forever() {
        match writer.factory().reader() {
            Ok(mut reader) => {
                reader.learn::<Greet>(writer.tell::<Tell>());
                return reader;
            }
            Err(_) => {}
        }
    }
    unreachable!()
}

/// One who visits the published edition, while outside.
#[derive(Drop)]
pub(crate) struct Visitor {
    reader: Outside,
    reached: Reached,
}

impl Model for Visitor {
    ghost use Rattle.std.specs.Prelude.{◌≡◌};
    ghost use Rattle.hk_publish.specs.Known.{Known, IsSettled, the_origin, known_at};

    ghost Value = { Known };

    ghost view = { λ v. known_at v.reader.place.me.0.client };

    ghost invariant = { λ v. IsSettled v.reader.place.me.0.client × (v.reached.book ≡ (the_origin v.reader.place.me.0.client).book) × (v.reached.journal ≡ v.reader.place.me.0.client.seen) };
}

/// One who visits the published edition, with the edition that was found.
pub(crate) struct Visit {
    inside: Inside,
}

impl Model for Visit {
    ghost use Rattle.hk_publish.specs.Known.{Known, IsFound, known_at};

    ghost Value = { Known };

    ghost view = { λ v. known_at v.inside.place.me.0.client };

    ghost invariant = { λ v. IsFound v.inside.place.me.0.client v.inside.part.value };
}

impl Visitor {
    // One who has seen nothing of a writer's edition, which is new.
    pub(crate) fn of<R: Wait>(rt: &R, writer: &mut Writer) -> Visitor
        requires origin { view writer.old.desk.place ≡ record new_view { origin = Some (origin_of writer.old.desk.shown.value) } }
        requires empty { writer.old.desk.shown.value.journal ≡ [] }
        ensures fresh { result ≡ new_known (home_of writer.old.desk.shown.value.book) writer.old.desk.shown.value.limits }
        ensures same_view { view writer.new.desk.place ≡ view writer.old.desk.place }
        ensures same_edition { writer.new.desk.shown ≡ writer.old.desk.shown }
        ensures same_pending { drop writer.new.behind writer.new.log.items ≡ drop writer.old.behind writer.old.log.items }
    {
        let reader = seat(rt, writer);
        let reached = writer.published().reached();
        Visitor { reader, reached }
    }

    // Enters for a look.
    pub(crate) fn enter<R: Wait>(self, rt: &R) -> Visit
        ensures { IsLook self (length result.seen) result }
    {
        let Visitor { reader, reached: _ } = self;
        Visit {
            inside: enter_as::<Enter, R>(rt, reader),
        }
    }

    // Enters to catch up.
    pub(crate) fn enter_to_catch_up<R: Wait>(self, rt: &R) -> Visit
        ensures { CatchesUp self result }
    {
        let Visitor { reader, reached: _ } = self;
        Visit {
            inside: enter_as::<Catch, R>(rt, reader),
        }
    }

    // How far the journal has reached that was seen.
    pub(crate) fn reached(&self) -> &Reached
        ensures home { home_of result.now.book ≡ self.now.home }
        ensures journal { result.now.journal ≡ self.now.seen }
    {
        &self.reached
    }
}

impl Visit {
    // How many versions were published.
    pub(crate) fn version(&self) -> u32
        ensures { result ≡ length self.now.seen }
    {
        self.inside.get().version()
    }

    // The catalogue that was found.
    pub(crate) fn catalogue(&self) -> &Catalogue
        ensures songs { songs_of result.now ≡ version self.now.limits self.now.seen (length self.now.seen) }
        ensures positions { result.now.store.positions ≡ self.now.limits.positions }
    {
        self.inside.get().catalogue()
    }

    // Leaves.
    pub(crate) fn leave(self) -> Visitor
        ensures { result ≡ self }
    {
        let Visit { inside } = self;
        let reached = inside.get().reached();
        Visitor {
            reader: inside.leave(),
            reached,
        }
    }
}
