// What may be done to a catalogue.
use hk_table::SongBlock;

/// An edit of a catalogue.
#[derive(Drop)]
pub enum Edit {
    /// A song is added.
    Add(SongBlock),
    /// The song with this id goes.
    Withdraw(u32),
    /// A batch ends, and with it a version.
    Seal,
}
