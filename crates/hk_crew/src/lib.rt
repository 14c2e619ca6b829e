//! Duties in threads of their own, beside one that is done at a desk.
//!
//! A [`Duty`] is what a thread does with what it is lent: it says when that may begin and what is promised of it afterwards.
//! [`Attend`] is the same for one who is lent a desk too. [`run_beside`] runs many duties of one kind in threads, and one who
//! attends to a desk beside them, and hands all promises on. It knows nothing of stations, and shares nothing between threads.
#![tactic(auto)]

ghost use Rattle.std.specs.Prelude.{◌≡◌, ◌<◌, ℕ, length, slice_index_or, All};
ghost use Rattle.std.specs.Thread.{IsSync, IsSend};

use std::sync::Wait;
use std::thread;
use std::thread::{Threads, join_mut};

#[cfg(test)]
mod tests;

/// What a thread does with what it is lent.
pub trait Duty {
    /// It may begin.
    ghost is_ready: { Self → Type 0 };

    /// What is promised of it, before and after.
    ghost has_done: { Self → Self → Type 0 };

    fn run<R: Wait>(&mut self, rt: &R)
        requires { is_ready self.old }
        ensures { has_done self.old self.new };
}

/// What one does who is lent a desk too.
pub trait Attend<E> {
    /// It may begin at this desk.
    ghost may_attend: { Self → E → Type 0 };

    /// What is promised of it and of the desk, before and after.
    ghost has_attended: { Self → E → Self → E → Type 0 };

    fn attend<R: Wait>(&mut self, desk: &mut E, rt: &R)
        requires { may_attend self.old desk.old }
        ensures { has_attended self.old desk.old self.new desk.new };
}

/// Runs each duty, in a thread of its own where one can be made.
pub fn run_each<W: Duty + Send, R: Threads + Wait + Sync>(rt: &R, crew: &mut [W])
    requires ready { All W.is_ready crew.old }
    ensures len { length crew.new ≡ length crew.old }
    ensures each { (i : ℕ) (d : W) → i < length crew.old → W.has_done (slice_index_or crew.old i d) (slice_index_or crew.new i d) }
{
    let threads = crew.len().max(1);
    thread::for_each_mut(
        rt,
        crew,
        threads,
        &|_: usize, worker: &mut W|
            requires { W.is_ready worker.old }
            ensures { W.has_done worker.old worker.new }
        { worker.run(rt) },
    );
}

/// Runs each duty of the crew, in a thread of its own where one can be made, and the clerk's at the desk beside them. It returns
/// once all are done.
pub fn run_beside<W: Duty + Send, E, C: Attend<E>, R: Threads + Wait + Sync>(
    rt: &R,
    crew: &mut [W],
    desk: &mut E,
    clerk: &mut C,
)
    requires crew { All W.is_ready crew.old }
    requires clerk { C.may_attend clerk.old desk.old }
    ensures len { length crew.new ≡ length crew.old }
    ensures each { (i : ℕ) (d : W) → i < length crew.old → W.has_done (slice_index_or crew.old i d) (slice_index_or crew.new i d) }
    ensures clerk { C.has_attended clerk.old desk.old clerk.new desk.new }
{
    let mut workers = ||
        requires { IsSync R.row × IsSend W.row × All W.is_ready crew.now }
        ensures { (length crew.exit.now ≡ length crew.entry.now) × ((i : ℕ) (d : W) → i < length crew.entry.now → W.has_done (slice_index_or crew.entry.now i d) (slice_index_or crew.exit.now i d)) }
    { run_each(rt, crew) };
    let mut office = ||
        requires { C.may_attend clerk.now desk.now }
        ensures { C.has_attended clerk.entry.now desk.entry.now clerk.exit.now desk.exit.now }
    { clerk.attend(desk, rt) };
    join_mut(rt, &mut workers, &mut office);
}
