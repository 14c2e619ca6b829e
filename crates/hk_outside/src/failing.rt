// Calls that are counted, and of which some are to fail.
ghost use Rattle.hk_outside.specs.Memory.{call_fails, IsNextCall, IsNewFailing};
ghost use Rattle.std.specs.Prelude.{◌≡◌};

/// Counts calls from 0, and tells of each whether it is to fail.
#[derive(Drop)]
pub struct Failing {
    numbers: Vec<u64>,
    next: u64,
}

impl Failing {
    /// Calls of which those with these numbers are to fail.
    pub fn new(numbers: Vec<u64>) -> Failing
        ensures { IsNewFailing numbers.items result }
    {
        Failing { numbers, next: 0 }
    }

    /// Counts a call, and answers whether it is to fail.
    pub fn fails(&mut self) -> bool
        ensures answer { result ≡ call_fails self.old }
        ensures counted { IsNextCall self.old self.new }
    {
        let number = self.next;
        self.next = number.saturating_add(1);
        self.numbers.as_slice().contains(&number)
    }
}
