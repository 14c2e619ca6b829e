// A reading: what one thread looks through.
ghost use Rattle.std.specs.Prelude.{◌≡◌, ◌≤◌, ◌+◌, ◌∷◌, [], IsTrue};
ghost use Rattle.hk_spec_matching.specs.Catalogue.{version};
ghost use Rattle.hk_block.specs.Ring.{is_full};
ghost use Rattle.hk_block.specs.Looker.{Looks, matches_in, most_steps};
ghost use Rattle.hk_publish.specs.Known.{IsLook, HasLearned, looker_of};

use crate::Note;
use crate::visitor::Visitor;
use hk_base::Steps;
use hk_block::{BlockRing, Looker, Scratch};
use hk_probe::look;
use std::marker::Model;
use std::sync::Wait;
use std::sync::ledger::Ledger;

// Enters until what is seen has the note.
fn catch_up<R: Wait>(rt: &R, visitor: Visitor, note: &Note) -> Visitor
    requires { note.now.home ≡ visitor.home }
    ensures { HasLearned visitor note.now.journal result }
{
    let mut visitor = visitor;
    for _ in rt.forever() {
        let visit = visitor.enter_to_catch_up(rt);
        let found = visit.version();
        visitor = visit.leave();
        if note.version() <= found {
            note.begins(&visitor);
            return visitor;
        }
    }
    unreachable!()
}

/// One thread's reading of a shared catalogue. It never goes back, and it can move to another thread. It keeps a runtime value
/// of its own, by which it waits where an enter is refused: that is so once the desk is closed, though no clause says when.
#[derive(Drop)]
pub struct Reading<R: Wait + Drop> {
    visitor: Option<Visitor>,
    rt: R,
}

impl<R: Wait + Drop> Model for Reading<R> {
    ghost use Rattle.hk_publish.specs.Known.{Known, unknown};
    ghost use Rattle.std.specs.Prelude.{◌≡◌, Some};
    ghost use Rattle.std.specs.Option.{option_map_or};

    ghost Value = { Known };

    ghost view = { λ r. option_map_or (λ visitor. visitor) r.visitor unknown };

    ghost invariant = { λ r. (visitor : _) × (r.visitor ≡ Some visitor) };
}

impl<R: Wait + Drop> Reading<R> {
    // The reading of a visitor.
    pub(crate) fn over(visitor: Visitor, rt: R) -> Reading<R>
        ensures { result ≡ visitor }
    {
        Reading {
            visitor: Some(visitor),
            rt,
        }
    }

    /// Learns a note of the same start: what is seen then begins with it, and so does what each later look sees. It enters,
    /// once at least, until it finds so much, and shows nothing. It takes no memory. Once the desk is closed it waits for ever.
    pub fn learn(&mut self, note: Note)
        requires { note.home ≡ self.old.home }
        ensures { HasLearned self.old note.journal self.new }
    {
        let Some(visitor) = self.visitor.take() else {
            unreachable!();
        };
        self.visitor = Some(catch_up(&self.rt, visitor, &note));
    }
}

impl<R: Wait + Drop> Looker for Reading<R> {
    ghost looker = { looker_of };

    /// One look by one enter: the scratch then holds the block's matches in the songs of the answered version. It takes no
    /// memory. Once the desk is closed it waits for ever.
    fn look<L: Ledger>(
        &mut self,
        ring: &BlockRing,
        scratch: &mut Scratch,
        steps: &mut Steps<L>,
    ) -> u32
        requires full { IsTrue (is_full ring.now) }
        requires space { self.old.limits.positions ≤ scratch.old.room }
        ensures look { IsLook self.old result self.new }
        ensures list { scratch.new.matches ≡ matches_in ring.now (version self.new.limits self.new.seen result) }
        ensures scratch_room { scratch.new.room ≡ scratch.old.room }
        ensures looks { Looks (result ∷ []) (looker_of self.old) (looker_of self.new) }
        ensures bound { steps.new ≤ steps.old + most_steps ring.now (looker_of self.new) }
    {
        let Some(visitor) = self.visitor.take() else {
            unreachable!();
        };
        let visit = visitor.enter(&self.rt);
        look(visit.catalogue(), ring, scratch, steps);
        let version = visit.version();
        self.visitor = Some(visit.leave());
        version
    }

    /// One look without a block, by one enter. It takes no memory. Once the desk is closed it waits for ever.
    fn now(&mut self) -> u32
        ensures look { IsLook self.old result self.new }
        ensures looks { Looks (result ∷ []) (looker_of self.old) (looker_of self.new) }
    {
        let Some(visitor) = self.visitor.take() else {
            unreachable!();
        };
        let found = visitor.enter(&self.rt);
        let version = found.version();
        self.visitor = Some(found.leave());
        version
    }
}
