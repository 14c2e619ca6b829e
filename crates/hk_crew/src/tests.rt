// That all are at work at once is shown by duties that end well only where the others have begun too.
use crate::{Attend, Duty, run_beside, run_each};
use std::sync::Wait;
use std::sync::atomic::{AtomicU64, Ordering};
use std::test::*;
use std::thread;

// So often one looks for the others before it gives up.
const PATIENCE: u32 = 10_000_000;

// One of a party, who waits until so many are there.
#[derive(Drop)]
struct Guest<'a> {
    there: &'a AtomicU64,
    party: u64,
    met: bool,
}

impl<'a> Guest<'a> {
    fn meet(&mut self) {
        let _before = self.there.fetch_add(1, Ordering::SeqCst);
        for _ in 0..PATIENCE {
            if self.there.load(Ordering::SeqCst) >= self.party {
                self.met = true;
                return;
            }
            thread::yield_now();
        }
    }
}

impl<'a> Duty for Guest<'a> {
    ghost is_ready = { λ g. Unit };

    ghost has_done = { λ old new. Unit };

    fn run<R: Wait>(&mut self, rt: &R) {
        self.meet();
    }
}

impl<'a> Attend<bool> for Guest<'a> {
    ghost may_attend = { λ g desk. Unit };

    ghost has_attended = { λ old desk new desk_new. Unit };

    fn attend<R: Wait>(&mut self, desk: &mut bool, rt: &R) {
        self.meet();
        *desk = self.met;
    }
}

fn make_guest(there: &AtomicU64, party: u64) -> Guest {
    Guest {
        there,
        party,
        met: false,
    }
}

#[test]
fn two_workers_wait_for_each_other(rt: HostRuntime) {
    let there = AtomicU64::new(0);
    let mut crew = [make_guest(&there, 2), make_guest(&there, 2)];
    run_each(&rt, &mut crew);
    assert!(rt; crew[0].met && crew[1].met);
}

#[test]
fn sixteen_workers_and_a_clerk_are_there_at_once(rt: HostRuntime) -> Result<(), Fail> {
    let there = AtomicU64::new(0);
    let mut crew = Vec::new(rt.alloc());
    for _ in 0..16u8 {
        crew.push(make_guest(&there, 17))?;
    }
    let mut desk = false;
    let mut clerk = make_guest(&there, 17);
    run_beside(&rt, &mut crew, &mut desk, &mut clerk);
    assert!(rt; crew.iter().all(|worker| worker.met) && desk);
    Ok(())
}

#[test]
fn a_clerk_and_a_worker_wait_for_each_other(rt: HostRuntime) {
    let there = AtomicU64::new(0);
    let mut crew = [make_guest(&there, 2)];
    let mut desk = false;
    let mut clerk = make_guest(&there, 2);
    run_beside(&rt, &mut crew, &mut desk, &mut clerk);
    assert!(rt; crew[0].met && desk);
}
