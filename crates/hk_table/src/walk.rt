// A walk through a bucket.
ghost use Rattle.std.specs.Prelude.{◌≡◌, ◌+◌, ◌<◌, drop, length, None};
ghost use Rattle.std.specs.List.{slice_get};
ghost use Rattle.hk_nodes.specs.Store.{IsOrderly, chain_at};
ghost use Rattle.hk_table.specs.Walks.{course};

use crate::{Place, Steps};
use hk_nodes::{END, Nodes};
use std::marker::Model;
use std::sync::ledger::Ledger;

/// The places of a word, one after another.
#[derive(Drop)]
pub struct Walk<'a> {
    nodes: &'a Nodes,
    word: u32,
    at: u32,
}

impl<'a> Model for Walk<'a> {
    ghost use Rattle.hk_table.specs.Index.{Course};

    ghost Value = { Course };

    ghost use Rattle.hk_table.specs.Walks.{as_course, IsWalk};

    ghost view = { as_course };

    ghost invariant = { IsWalk };
}

impl<'a> Walk<'a> {
    // A walk for a word, which visits the nodes of this bucket.
    pub(crate) fn new(nodes: &'a Nodes, bucket: u32, word: u32) -> Walk<'a>
        requires bucket { bucket < length nodes.now.chains }
        requires orderly { IsOrderly nodes.now }
        ensures { result ≡ course nodes.now word (chain_at nodes.now bucket) }
    {
        Walk {
            nodes,
            word,
            at: nodes.head(bucket),
        }
    }

    /// The next place where the table has the word, and None exactly where none is left. It ticks once for each node that
    /// it visits; a whole walk visits each node of the word's bucket.
    pub fn advance<L: Ledger>(&mut self, steps: &mut Steps<L>) -> Option<Place>
        ensures place { result ≡ slice_get self.old.places 0 }
        ensures left { self.new.places ≡ drop 1 self.old.places }
        ensures ticks { steps.new + self.new.nodes ≡ steps.old + self.old.nodes }
        ensures done { result ≡ None → self.new.nodes ≡ 0 }
    {
        while self.at != END {
            let visit = self.nodes.visit(self.at, steps);
            self.at = visit.next;
            if visit.word == self.word {
                return Some(Place {
                    slot: visit.slot,
                    pos: visit.pos,
                });
            }
        }
        None
    }
}
