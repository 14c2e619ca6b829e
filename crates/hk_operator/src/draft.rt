// The open command, as far as it came.
ghost use Rattle.std.specs.Prelude.{◌≡◌, IfOk};
ghost use Rattle.hk_spec_sound.specs.Limits.{IsInRange, POSITIONS};
ghost use Rattle.hk_operator.specs.Draft.{new_draft, draft_after};

use crate::word_buffer::WordBuffer;
use hk_base::{Form, NoMemory};
use hk_operator_wire::Part;
use std::alloc::Global;

/// A command's kind, its id, its form and its words; what didn't come is left over from an earlier command.
#[derive(Drop)]
pub struct Draft {
    pub kind: u8,
    pub id: u32,
    pub form: Form,
    pub words: WordBuffer,
}

impl Draft {
    /// No command, with room for so many words.
    pub fn new(alloc: Global, room: u32) -> Result<Draft, NoMemory>
        requires { IsInRange POSITIONS room }
        ensures { IfOk result (λ d. d ≡ new_draft room) }
    {
        Ok(Draft {
            kind: 0,
            id: 0,
            form: Form {
                channels: 1,
                factor: 1,
            },
            words: WordBuffer::new(alloc, room)?,
        })
    }

    /// Takes what a byte brings.
    pub fn take(&mut self, part: Part)
        ensures { self.new ≡ draft_after self.old part }
    {
        match part {
            Part::Begin(kind) => {
                self.kind = kind;
                self.words.clear();
            }
            Part::Id(id) => self.id = id,
            Part::Word(word) => self.words.push(word),
            Part::Form(form) => self.form = form,
            Part::Nothing | Part::Byte(_) => {}
        }
    }
}
