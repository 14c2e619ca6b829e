// The calls that asked a door in memory for its objects.
ghost use Rattle.std.specs.Prelude.{◌≡◌, ◌≤◌, ◌<◌, ◌+◌, ◌&&◌, if◌then◌else◌, ℕ, ◌∷◌, ◌++◌, [], IfOk, Bool, true, vec_capacity};
ghost use Rattle.std.proofs.Props.{props};
ghost use Rattle.hk_outside.specs.Doors.{IsUnasked, is_gate, gates_asked, gates_given};
ghost use Rattle.hk_outside.specs.Calls.{code_of, AreDistinct, AreNumbered, GatesBelow, MOST_ASKS};
ghost use Rattle.hk_outside.specs.declared.door.Ask.TheVariants as asks;

use crate::{Ask, Call};
use hk_base::NoMemory;
use std::alloc::Global;

// How many calls can ask for something new.
const CALL_LIMIT: usize = 513;

/// Calls in order, with room for all that can ask for something new.
#[derive(Drop)]
pub struct Calls {
    made: Vec<Call>,
    asked: u8,
    given: u8,
    ghost distinct: { AreDistinct made.items } by { Prim.hlevel props },
    ghost numbered: { AreNumbered made.items },
    ghost gates: { GatesBelow asked made.items },
    ghost asked_is: { asked ≡ gates_asked made.items },
    ghost given_is: { given ≡ gates_given made.items },
    ghost given_were_asked: { given ≤ asked },
    ghost room: { MOST_ASKS ≤ vec_capacity made },
}

impl Calls {
    /// No calls yet.
    #[tactic(auto, using(crate::proofs::Asked::none_distinct))]
    pub fn new(alloc: Global) -> Result<Calls, NoMemory>
        ensures { IfOk result (λ calls. calls.made.items ≡ []) }
    {
        match Vec::with_capacity(alloc, CALL_LIMIT) {
            Ok(made) => Ok(Calls {
                made,
                asked: 0,
                given: 0,
            }),
            Err(_) => Err(NoMemory),
        }
    }

    /// How many gates were handed out.
    pub fn gates_given(&self) -> u8
        ensures { result ≡ gates_given self.now.made.items }
    {
        self.given
    }

    /// Adds a call that asked for a station.
    pub fn add_station(&mut self, number: u8, ok: bool)
        requires { IsUnasked (asks.Station number) self.old.made.items }
        ensures { self.new.made.items ≡ self.old.made.items ++ record { ask = asks.Station number; ok = ok } ∷ [] }
    {
        add(&mut self.made, Ask::Station(number), ok);
    }

    /// Adds a call that asked for the operator's objects.
    pub fn add_operator(&mut self, ok: bool)
        requires { IsUnasked asks.Operator self.old.made.items }
        ensures { self.new.made.items ≡ self.old.made.items ++ record { ask = asks.Operator; ok = ok } ∷ [] }
    {
        add(&mut self.made, Ask::Operator, ok);
    }

    /// Adds a call that asked for a gate, which is one of `most`.
    pub fn add_gate(&mut self, most: u8, ok: bool)
        requires { gates_asked self.old.made.items < most }
        ensures { self.new.made.items ≡ self.old.made.items ++ record { ask = asks.Gate (gates_asked self.old.made.items); ok = ok } ∷ [] }
    {
        add(&mut self.made, Ask::Gate(self.asked), ok);
        self.asked += 1;
        if ok {
            self.given += 1;
        }
    }
}

// Adds a call that asked for something new.
fn add(made: &mut Vec<Call>, ask: Ask, ok: bool)
    requires new { IsUnasked ask made.old.items }
    requires number { code_of ask < MOST_ASKS }
    requires distinct { AreDistinct made.old.items }
    requires numbered { AreNumbered made.old.items }
    requires room { MOST_ASKS ≤ vec_capacity made.old }
    ensures items { made.new.items ≡ made.old.items ++ record { ask = ask; ok = ok } ∷ [] }
    ensures distinct { AreDistinct made.new.items }
    ensures numbered { AreNumbered made.new.items }
    ensures gates { (count : ℕ) → GatesBelow count made.old.items → ((w : ℕ) → ask ≡ asks.Gate w → w < count) → GatesBelow count made.new.items }
    ensures asked { gates_asked made.new.items ≡ gates_asked made.old.items + (if is_gate ask then 1 else 0) }
    ensures given { gates_given made.new.items ≡ gates_given made.old.items + (if is_gate ask && ok then 1 else 0) }
    ensures room { MOST_ASKS ≤ vec_capacity made.new }
{
    match made.push(Call { ask, ok }) {
        Ok(()) => {}
        Err(_) => unreachable!(),
    }
}
