// The total capacity of the arcs of a pair.
ghost use Rattle.std.specs.Prelude.{◌≡◌, ◌-◌, ◌^◌, pos, ◌≤ℤ◌, ◌<ℤ◌, refl, false};
ghost use Rattle.std.specs.Option.{option_copied, option_map, unwrap_or};
ghost use Rattle.dn_arc_theory.specs.Kinds.{capacities};
ghost use Rattle.dn_arc_theory.specs.Capacities.{total_cap};
ghost use Rattle.dn_arc_theory.specs.State.SingleArcs.{cap_listed};
ghost use Rattle.dn_arc_theory.specs.Differences.{TotalsDiffer};
ghost use Rattle.dn_arc_theory.specs.State.Sizes.{cap_sizes};
ghost use Rattle.dn_arc_theory.proofs.TotalKindLaws.{total_kind, total_sized, total_differs, total_canonical, total_fit};

use dn_arc_theory::{CapArc, Form, How};
use dn_bundle_trait::{Bundle, BundleFault};
use std::alloc::{AllocError, Global};

/// The total capacity of the arcs of a `max` pair, which is above 0.
#[derive(Drop)]
pub struct Total {
    total: i64,
    ghost some: { pos 0 <ℤ total },
    ghost most: { total ≤ℤ pos (2 ^ 63 - 1) },
}

impl Total {
    /// Returns the total capacity.
    pub fn get(&self) -> i64
        ensures { result ≡ total_cap (cap_listed self.now.total) }
    {
        self.total
    }
}

// Returns the total capacity of a bundle, or 0 if there is no bundle.
fn total_of(bundle: Option<&Total>) -> i64
    ensures { result ≡ unwrap_or (option_map (λ b. b.total) (option_copied bundle.entry)) (pos 0) }
{
    match bundle {
        Some(bundle) => bundle.total,
        None => 0,
    }
}

impl Bundle for Total {
    type Arc = CapArc;

    ghost bundle = { record {
      kind = capacities;
      sizes = cap_sizes;
      Differ = TotalsDiffer;
      listed = λ form b. cap_listed b.total;
      wants_memory = false;
    } };

    ghost laws = { total_kind };

    ghost sized = { total_sized };

    ghost differs = { total_differs };

    ghost canonical = { λ form b. total_canonical b.total b.some };

    ghost same_forms = { λ b. total_kind.meaning.same_refl (cap_listed b.total) };

    ghost fit = { λ form b. total_fit b.total b.some b.most };

    ghost same_numbers = { λ a. refl };

    fn of(_alloc: Global, arc: CapArc) -> Result<Option<Total>, AllocError> {
        if arc.cap == 0 {
            return Ok(None);
        }
        Ok(Some(Total { total: arc.cap }))
    }

    fn is_arc(arc: &CapArc) -> bool {
        0 <= arc.cap
    }

    fn add(&mut self, arc: CapArc) -> Result<(), BundleFault> {
        let Some(total) = self.total.checked_add(arc.cap) else {
            return Err(BundleFault::Sum);
        };
        *self = Total { total };
        Ok(())
    }

    fn how(left: Option<&Total>, right: Option<&Total>) -> Option<How> {
        let left = total_of(left);
        let right = total_of(right);
        if left == right {
            return None;
        }
        Some(How::Totals { left, right })
    }

    fn touch(&self) -> i64 {
        0
    }

    fn entries(&self) -> u64 {
        1
    }

    fn canon_len(&self, _form: Form) -> u64 {
        1
    }

    fn canon_arc(&self, i: u64, _form: Form) -> Option<CapArc> {
        if i != 0 {
            return None;
        }
        Some(CapArc { cap: self.total })
    }

    fn canon_after(&self, _arc: &CapArc, _form: Form) -> Option<CapArc> {
        None
    }
}
