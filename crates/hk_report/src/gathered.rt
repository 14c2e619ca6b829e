// Parts of a line, gathered before they are written.
ghost use Rattle.std.specs.Prelude.{◌≡◌, ◌+◌, ◌≤◌, ◌++◌, [], length};

use std::marker::Model;

// Room for the longest line of a print: a number of 20 digits, a word and a mask of 8 each, two spaces and the newline.
const ROOM: usize = 39;

// Bytes that are to be written at once.
#[derive(Drop)]
pub struct Gathered {
    bytes: [u8; 39],
    count: usize,
}

impl Model for Gathered {
    ghost use Rattle.std.specs.Prelude.{ℕ, List, ◌≤◌, take};

    ghost Value = { List ℕ };

    ghost view = { λ g. take g.count g.bytes };

    ghost invariant = { λ g. g.count ≤ 39 };
}

impl Gathered {
    pub fn new() -> Gathered
        ensures { result ≡ [] }
    {
        Gathered {
            bytes: [0; ROOM],
            count: 0,
        }
    }

    // Puts the part behind the others.
    pub fn push(&mut self, part: &[u8])
        requires { length self.old + length part.now ≤ 39 }
        ensures { self.new ≡ self.old ++ part.now }
    {
        let end = self.count + part.len();
        self.bytes[self.count..end].copy_from_slice(part);
        self.count = end;
    }

    pub fn text(&self) -> &[u8]
        ensures { result.now ≡ self.now }
    {
        &self.bytes[..self.count]
    }
}
