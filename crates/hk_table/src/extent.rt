// Where songs lie in a store.
ghost use Rattle.std.specs.Prelude.{◌≡◌, map, option_map, slice_index_or, None};
ghost use Rattle.std.specs.List.{All};
ghost use Rattle.hk_table.specs.Extents.{IsSlotApart, moved_down};

/// A song's id, and the place and number of its words.
#[derive(Clone, Copy)]
pub struct Extent {
    pub id: u32,
    pub start: usize,
    pub length: usize,
}

/// The extent in a slot, and None where the slot is empty or doesn't exist.
pub fn extent_at(slots: &[Option<Extent>], slot: u32) -> Option<Extent>
    ensures { result ≡ slice_index_or slots.now slot None }
{
    match slots.get(slot as usize) {
        Some(extent) => *extent,
        None => None,
    }
}

// The slot once the words of an extent are gone.
fn closed_up(slot: Option<Extent>, gone: Extent) -> Option<Extent>
    requires { IsSlotApart gone slot }
    ensures { result ≡ option_map (moved_down gone) slot }
{
    match slot {
        Some(extent) if gone.start < extent.start => Some(Extent {
            id: extent.id,
            start: extent.start - gone.length,
            length: extent.length,
        }),
        other => other,
    }
}

/// Moves every extent that stands behind the one that is gone down by its length.
pub fn close_up(slots: &mut [Option<Extent>], gone: Extent)
    requires { All (IsSlotApart gone) slots.old }
    ensures { slots.new ≡ map (option_map (moved_down gone)) slots.old }
{
    for slot in slots.iter_mut() {
        *slot = closed_up(*slot, gone);
    }
}
