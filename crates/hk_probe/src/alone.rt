// A catalogue for one thread.
ghost use Rattle.std.specs.Prelude.{◌≡◌, ◌≤◌, ◌+◌, ◌*◌, ◌^◌, None, Some, true, IfOk, IsTrue, OnOk, OnErr};
ghost use Rattle.std.specs.List.{All};
ghost use Rattle.hk_spec_matching.specs.Catalogue.{Limits, edited_by};
ghost use Rattle.hk_spec_matching.specs.Cost.{cost};
ghost use Rattle.hk_block.specs.Ring.{is_full, query_of};
ghost use Rattle.hk_block.specs.Looker.{matches_in};
ghost use Rattle.hk_catalogue.specs.Shelves.{songs_of, HasLimits};
ghost use Rattle.hk_catalogue.specs.Shelf.{IsChange, changes_of};
ghost use Rattle.hk_probe.specs.Single.{new_single, after_publish, publish_answer, shelf_of, looker_of};

use crate::table_search::look;
use hk_base::{NoMemory, Steps};
use hk_block::{BlockRing, Looker, Scratch};
use hk_catalogue::{Catalogue, Edit, Refused, Roll, Shelf, StageFault};
use std::alloc::Global;
use std::marker::Model;
use std::sync::ledger::Ledger;

/// The published catalogue, the edits that are staged, and the ids and lengths of the songs that a publish would give.
#[derive(Drop)]
pub struct Alone {
    published: Catalogue,
    roll: Roll,
    staged: Vec<Edit>,
}

impl Model for Alone {
    ghost use Rattle.hk_probe.specs.Single.{Single};

    ghost Value = { Single };

    ghost use Rattle.hk_probe.specs.Inside.{as_single, IsKept};

    ghost view = { as_single };

    ghost invariant = { IsKept };
}

// Does edits that are no Seals, one after another.
fn absorb_all(catalogue: &mut Catalogue, edits: &[Edit])
    requires changes { All IsChange edits.now }
    ensures songs { (limits : Limits) → HasLimits catalogue.old limits
        → songs_of catalogue.new ≡ edited_by limits (songs_of catalogue.old) (changes_of edits.now) }
    ensures version { catalogue.new.version ≡ catalogue.old.version }
    ensures limits_stay { (limits : Limits) → HasLimits catalogue.old limits → HasLimits catalogue.new limits }
{
    for edit in edits {
        catalogue.absorb(edit);
    }
}

impl Alone {
    /// A catalogue of no song at version 0, with room for 1 to 65536 songs of 256 to 2^24 words in all. It takes all memory
    /// that a look or a publish needs.
    pub fn new(alloc: Global, songs: u32, positions: u32, versions: u32) -> Result<Alone, NoMemory>
        requires enough { 256 ≤ positions }
        requires most { positions ≤ 2 ^ 24 }
        requires some { 1 ≤ songs }
        requires few { songs ≤ 65536 }
        ensures { IfOk result (λ alone. alone ≡ new_single (record { songs = songs; positions = positions; versions = versions })) }
    {
        Ok(Alone {
            published: Catalogue::new(alloc, songs, positions)?,
            roll: Roll::new(alloc, songs, positions, versions)?,
            staged: Vec::new(alloc),
        })
    }

    /// Publishes all that is staged and answers the new version, or VersionsFull with all unchanged.
    pub fn publish(&mut self) -> Result<u32, Refused>
        ensures answer { result ≡ publish_answer self.old }
        ensures published { OnOk result (self.new ≡ after_publish self.old) }
        ensures unchanged { OnErr result (self.new ≡ self.old) }
        ensures limits_stay { self.new.limits ≡ self.old.limits }
    {
        if let Err(refused) = self.roll.check_seal() {
            return Err(refused);
        }
        absorb_all(&mut self.published, self.staged.as_slice());
        self.published.absorb(&Edit::Seal);
        self.roll.note(&Edit::Seal);
        self.staged.clear();
        Ok(self.published.version())
    }

    /// The published version, 0 before the first publish.
    pub fn version(&self) -> u32
        ensures { result ≡ self.now.version }
    {
        self.published.version()
    }
}

impl Shelf for Alone {
    ghost shelf = { shelf_of };

    fn check_add(&self, id: u32, words: u64) -> Result<(), Refused> {
        self.roll.check_add(id, words)
    }

    fn check_withdraw(&self, id: u32) -> Result<(), Refused> {
        self.roll.check_withdraw(id)
    }

    fn stage(&mut self, edit: Edit) -> Result<(), StageFault> {
        if let Err(refused) = self.roll.check(&edit) {
            return Err(StageFault::Refused(refused));
        }
        if self.staged.reserve(1).is_err() {
            return Err(StageFault::NoMemory);
        }
        self.roll.note(&edit);
        self.staged.push_reserved(edit);
        Ok(())
    }
}

impl Looker for Alone {
    ghost looker = { looker_of };

    fn look<L: Ledger>(
        &mut self,
        ring: &BlockRing,
        scratch: &mut Scratch,
        steps: &mut Steps<L>,
    ) -> u32
        requires full { IsTrue (is_full ring.now) }
        requires space { self.old.limits.positions ≤ scratch.old.room }
        ensures answer { result ≡ self.new.version }
        ensures list { scratch.new.matches ≡ matches_in ring.now self.new.songs }
        ensures scratch_room { scratch.new.room ≡ scratch.old.room }
        ensures unchanged { self.new ≡ self.old }
        ensures bound { steps.new ≤ steps.old + 257 * cost self.new.limits.positions (query_of ring.now) self.new.songs }
    {
        look(&self.published, ring, scratch, steps);
        self.version()
    }

    fn now(&mut self) -> u32
        ensures answer { result ≡ self.new.version }
        ensures unchanged { self.new ≡ self.old }
    {
        self.version()
    }
}
