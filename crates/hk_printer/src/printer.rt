// Sound that is printed.
ghost use Rattle.std.specs.Prelude.{◌≡◌, ◌≤◌, ◌<◌, ◌^◌, ℕ, List, [], IfOk, true};
ghost use Rattle.hk_spec_runs.specs.Options.{Printing};

use hk_base::{NoMemory, Sink, Steps, Trouble};
use hk_front::Front;
use hk_player::{Finished, Player, Taken};
use hk_report::write_print;
use std::alloc::Global;
use std::sync::ledger::Ledger;

/// Sound as far as it was printed: what its front hears, how many bytes were taken, how many lines were written, and
/// whether a byte came past the limit.
#[derive(Drop)]
pub struct Printer {
    front: Front,
    limit: u64,
    taken: u64,
    lines: u64,
    is_over: bool,
    ghost within: { taken ≤ limit },
    ghost over_at_limit: { is_over ≡ true → taken ≡ limit },
    ghost fewer: { lines ≤ taken },
}

impl Printer {
    ghost use Rattle.hk_printer.specs.Printed.{HasPrinted, printing_of};

    /// A printer of sound of 1 or 2 channels that is decimated by a factor of 1 to 8, with `flips` weak bits in a print, and
    /// of at most `limit` bytes. It takes all memory that it needs.
    pub fn new(
        alloc: Global,
        channels: u8,
        factor: u8,
        flips: u32,
        limit: u64,
    ) -> Result<Printer, NoMemory>
        requires some_channels { 1 ≤ channels }
        requires few_channels { channels ≤ 2 }
        requires some_factor { 1 ≤ factor }
        requires small_factor { factor ≤ 8 }
        requires limit { limit < 2 ^ 63 }
        ensures set { IfOk result (λ printer. printing_of printer ≡ record { channels = channels; factor = factor; flips = flips; bytes = limit }) }
        ensures new { IfOk result (λ printer. HasPrinted printer []) }
    {
        let mut front = Front::new(alloc, flips)?;
        front.start(channels, factor);
        Ok(Printer {
            front,
            limit,
            taken: 0,
            lines: 0,
            is_over: false,
        })
    }
}

impl Player for Printer {
    ghost use Rattle.hk_spec_runs.specs.Words.{Print};
    ghost use Rattle.hk_spec_runs.specs.Outcome.{task_of};
    ghost use Rattle.hk_printer.specs.Printed.{HasPrinted, printing_of, fault_met};

    ghost task = { λ p. task_of (Print (printing_of p)) };

    ghost has_played = { λ p refused text. HasPrinted p text };

    ghost fault = { fault_met };

    fn listen(&mut self, piece: &[u8]) -> usize {
        let room = self.limit - self.taken;
        let within = room.min(piece.len() as u64) as usize;
        let count = self.front.listen(&piece[..within]);
        self.taken += count as u64;
        count
    }

    fn take<K: Sink, L: Ledger>(&mut self, byte: u8, out: &mut K, _steps: &mut Steps<L>) -> Taken {
        if self.taken == self.limit {
            self.is_over = true;
            return Taken::Stopped(Trouble::TooLong(self.limit));
        }
        self.taken += 1;
        match self.front.push(byte) {
            None => Taken::Going,
            Some(print) => match write_print(out, self.lines, &print) {
                Ok(()) => {
                    self.lines += 1;
                    Taken::Going
                }
                Err(_) => Taken::SinkFault,
            },
        }
    }

    fn finish<K: Sink>(&mut self, _out: &mut K) -> Finished {
        if self.is_over {
            return Finished::Wrong(Trouble::TooLong(self.limit));
        }
        Finished::Whole(true)
    }

    ghost in_form = { λ p refused text h. h.in_form };

    ghost none_met = { λ p refused text h. h.none_met };
}
