// What the operator does, round by round.

/// What the operator does in one round.
#[derive(Clone, Copy)]
pub enum Edit {
    /// It adds so many songs from one on.
    Add { first: usize, count: usize },
    /// It withdraws a song.
    Withdraw { song: usize },
}

/// The four rounds: each half of the songs comes, song 3 goes, song 3 comes again.
pub const ROUNDS: [Edit; 4] = [
    Edit::Add { first: 0, count: 4 },
    Edit::Add { first: 4, count: 4 },
    Edit::Withdraw { song: 3 },
    Edit::Add { first: 3, count: 1 },
];
