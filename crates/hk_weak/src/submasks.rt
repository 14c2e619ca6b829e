// The subsets of a mask.
ghost use Rattle.std.specs.Prelude.{◌≡◌, ◌∷◌, bit_and};
ghost use Rattle.std.specs.Iterator.{YieldsFirst, item_count};
ghost use Rattle.std.specs.Option.{ForSome};
ghost use Rattle.hk_spec_matching.specs.Cost.{subsets};
ghost use Rattle.hk_weak.specs.Left.{subsets_from};

use std::marker::Model;

/// Every subset of a mask's bits, each once, in rising order as numbers, so the empty one first. It is seen as the list
/// of the subsets that are left.
#[derive(Drop)]
pub struct Submasks {
    mask: u32,
    next: Option<u32>,
}

impl Model for Submasks {
    ghost use Rattle.std.specs.Prelude.{◌≡◌, ℕ, List, bit_and};
    ghost use Rattle.std.specs.Option.{ForSome};
    ghost use Rattle.hk_weak.specs.Left.{subsets_from};

    ghost Value = { List ℕ };

    ghost view = { λ s. subsets_from (record { mask = s.mask }) s.next };

    ghost invariant = { λ s. ForSome s.next (λ subset. bit_and subset s.mask ≡ subset) };
}

impl Submasks {
    /// The subsets of this mask, 2^n for n bits.
    pub fn new(mask: u32) -> Submasks
        ensures { result ≡ subsets (record { mask = mask }) }
    {
        Submasks {
            mask,
            next: Some(0),
        }
    }
}

impl Iterator for Submasks {
    type Item = u32;

    ghost next_gives = { YieldsFirst (λ left. left) };

    ghost remaining = { item_count (λ left. left) };

    fn next(&mut self) -> Option<u32> {
        let subset = self.next?;
        self.next = subset_after(self.mask, subset);
        Some(subset)
    }
}

// The next greater subset of the mask. The bits that it leaves out are the next lower subset than those that this one
// leaves out.
fn subset_after(mask: u32, subset: u32) -> Option<u32>
    requires { bit_and subset mask ≡ subset }
    ensures next { subsets_from (record { mask = mask }) (Some subset) ≡ subset ∷ subsets_from (record { mask = mask }) result }
    ensures inside { ForSome result (λ next. bit_and next mask ≡ next) }
{
    let left_out = mask - subset;
    if left_out == 0 {
        return None;
    }
    Some(mask - ((left_out - 1) & mask))
}
