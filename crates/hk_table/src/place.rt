// Where a word stands.

/// A slot, and a position among the words of its song, from 0.
#[derive(Clone, Copy)]
pub struct Place {
    pub slot: u32,
    pub pos: u32,
}
