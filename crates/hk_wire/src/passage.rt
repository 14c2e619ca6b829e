// How far a stream has come, and what ended it.
ghost use Rattle.std.specs.Prelude.{◌≡◌, ◌≤◌, ◌<◌, ◌+◌, ◌-◌, ◌^◌, ◌++◌, ℕ, List, [], ◌∷◌, length, IfOk, OnOk, OnErr, Some, None, is_some, if◌then◌else◌};
ghost use Rattle.std.specs.Option.{option_or};
ghost use Rattle.std.specs.Result.{result_err};
ghost use Rattle.hk_base.specs.declared.plain.WireFault.{WireFault};
ghost use Rattle.hk_spec_streams.specs.Pieces.{fault_of, seen_of};

use hk_base::WireFault;

/// How many bytes of a stream were taken, how many it may have, and the fault that was met.
#[derive(Clone, Copy, Debug)]
pub struct Passage {
    limit: u64,
    taken: u64,
    fault: Option<WireFault>,
    ghost within: { taken ≤ limit },
}

impl Passage {
    ghost use Rattle.hk_wire.specs.Kept.{Met, Keeps, EndsAtLimit, passage_limit, bytes_taken, fault_kept};

    /// No byte yet, and at most `limit` bytes to come.
    pub fn new(limit: u64) -> Passage
        ensures keeps { (met : Met) → Keeps met result [] }
        ensures limit { passage_limit result ≡ limit }
        ensures none { bytes_taken result ≡ 0 }
    {
        Passage {
            limit,
            taken: 0,
            fault: None,
        }
    }

    /// The next byte's place, or the fault that ends the stream before it: the one that was met, or TooLong at the limit,
    /// which is kept from there on.
    pub fn next_place(&mut self) -> Result<u64, WireFault>
        ensures place { IfOk result (λ place. place ≡ bytes_taken self.old) }
        ensures at_end { (met : Met) (text : List ℕ) → Keeps met self.old text → IfOk result (λ place. place ≡ length text) }
        ensures room { IfOk result (λ place. place < passage_limit self.new) }
        ensures more { IfOk result (λ place. place < 2 ^ 64 - 1) }
        ensures same_place { OnOk result (self.new ≡ self.old) }
        ensures still_keeps { (met : Met) (text : List ℕ) → Keeps met self.old text → OnOk result (Keeps met self.new text) }
        ensures fault { result_err result ≡ fault_kept self.new }
        ensures keeps { (met : Met) (text : List ℕ) (byte : ℕ) → EndsAtLimit met → Keeps met self.old text
            → OnErr result (Keeps met self.new (text ++ byte ∷ [])) }
        ensures same_fault { (fault : WireFault) → fault_kept self.old ≡ Some fault → self.new ≡ self.old }
        ensures limit_stays { passage_limit self.new ≡ passage_limit self.old }
        ensures taken_stays { bytes_taken self.new ≡ bytes_taken self.old }
    {
        if let Some(fault) = self.fault {
            return Err(fault);
        }
        if self.taken == self.limit {
            let fault = WireFault::TooLong(self.limit);
            self.fault = Some(fault);
            return Err(fault);
        }
        Ok(self.taken)
    }

    /// The next byte was taken.
    pub fn advance(&mut self)
        requires { bytes_taken self.old < passage_limit self.old }
        ensures keeps { (met : Met) (text : List ℕ) (byte : ℕ) → fault_kept self.old ≡ None → Keeps met self.old text
            → met (passage_limit self.old) (text ++ byte ∷ []) ≡ None → Keeps met self.new (text ++ byte ∷ []) }
        ensures taken { bytes_taken self.new ≡ bytes_taken self.old + 1 }
        ensures same_fault { fault_kept self.new ≡ fault_kept self.old }
        ensures limit_stays { passage_limit self.new ≡ passage_limit self.old }
    {
        self.taken += 1;
    }

    /// So many bytes were taken, none of which meets a fault.
    pub fn advance_by(&mut self, count: u64)
        requires { bytes_taken self.old + count ≤ passage_limit self.old }
        ensures keeps { (met : Met) (text more : List ℕ) → fault_kept self.old ≡ None → Keeps met self.old text → length more ≡ count
            → fault_of (met (passage_limit self.old)) (text ++ more) ≡ None → Keeps met self.new (text ++ more) }
        ensures taken { bytes_taken self.new ≡ bytes_taken self.old + count }
        ensures fits { bytes_taken self.new < 2 ^ 64 }
        ensures same_fault { fault_kept self.new ≡ fault_kept self.old }
        ensures limit_stays { passage_limit self.new ≡ passage_limit self.old }
    {
        self.taken += count;
    }

    /// How many bytes may be taken still: none after a fault.
    pub fn room(&self) -> u64
        ensures { result ≡ (if is_some (fault_kept self.now) then 0 else passage_limit self.now - bytes_taken self.now) }
    {
        if self.fault.is_some() {
            0
        } else {
            self.limit - self.taken
        }
    }

    /// The next byte met a fault.
    pub fn fail(&mut self, fault: WireFault)
        ensures keeps { (met : Met) (text : List ℕ) (byte : ℕ) → fault_kept self.old ≡ None → Keeps met self.old text
            → met (passage_limit self.old) (text ++ byte ∷ []) ≡ Some fault → Keeps met self.new (text ++ byte ∷ []) }
        ensures fault { fault_kept self.new ≡ Some fault }
        ensures limit_stays { passage_limit self.new ≡ passage_limit self.old }
        ensures taken_stays { bytes_taken self.new ≡ bytes_taken self.old }
    {
        self.fault = Some(fault);
    }

    /// How the stream ends here: with the fault that was met, and else Ok where it may end, or Cut with the number of bytes.
    pub fn finish(&self, may_end: bool) -> Result<(), WireFault>
        ensures { (met : Met) (text : List ℕ) → Keeps met self.now text → result_err result
            ≡ option_or (fault_of (met (passage_limit self.now)) text) (if may_end then None else Some (WireFault.Cut (length text))) }
    {
        match self.fault {
            Some(fault) => Err(fault),
            None if may_end => Ok(()),
            None => Err(WireFault::Cut(self.taken)),
        }
    }

    /// How many bytes were taken before the fault, or in all.
    pub fn taken(&self) -> u64
        ensures count { result ≡ bytes_taken self.now }
        ensures seen { (met : Met) (text : List ℕ) → Keeps met self.now text → result ≡ length (seen_of (met (passage_limit self.now)) text) }
    {
        self.taken
    }
}
