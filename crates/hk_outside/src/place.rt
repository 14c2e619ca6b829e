// Where an object of a door in memory is.
ghost use Rattle.std.specs.Prelude.{◌≡◌, IfNone, OnSome, option_copied};
ghost use Rattle.hk_outside.specs.Places.{inside_of, back_of};
ghost use Rattle.hk_outside.specs.declared.place.Place.TheVariants as places;

use std::mem;

/// An object that is handed out and back.
#[derive(Drop)]
pub enum Place<T> {
    Inside(T),
    Outside,
    Back(T),
}

impl<T: Drop> Place<T> {
    /// Takes the object out, where it wasn't yet.
    pub fn take(&mut self) -> Option<T>
        ensures object { result ≡ inside_of self.old }
        ensures outside { OnSome result (self.new ≡ places.Outside) }
        ensures stays { IfNone result (self.new ≡ self.old) }
    {
        match mem::replace(self, Place::Outside) {
            Place::Inside(object) => Some(object),
            Place::Outside => None,
            Place::Back(object) => {
                *self = Place::Back(object);
                None
            }
        }
    }

    /// The object as it was handed back.
    pub fn back(&self) -> Option<&T>
        ensures { option_copied result ≡ back_of self.now }
    {
        match self {
            Place::Back(object) => Some(object),
            _ => None,
        }
    }
}
