// The least length of the arcs of a pair.
ghost use Rattle.std.specs.Prelude.{◌≡◌, FitsSigned, refl, false};
ghost use Rattle.std.specs.Int.{w64};
ghost use Rattle.std.specs.Option.{option_copied, option_map};
ghost use Rattle.dn_arc_theory.specs.Kinds.{lengths};
ghost use Rattle.dn_arc_theory.specs.Lengths.{LeastLength};
ghost use Rattle.dn_arc_theory.specs.State.SingleArcs.{length_listed};
ghost use Rattle.dn_arc_theory.specs.Differences.{LengthsDiffer};
ghost use Rattle.dn_arc_theory.specs.State.Sizes.{length_sizes};
ghost use Rattle.dn_arc_theory.proofs.LengthKindLaws.{length_kind, length_sized, length_differs, length_canonical, length_fit};

use dn_arc_theory::{Form, How, LengthArc};
use dn_bundle_trait::{Bundle, BundleFault};
use std::alloc::{AllocError, Global};

/// The least length of the arcs of an `sp` pair.
#[derive(Drop)]
pub struct Least {
    length: i64,
    ghost fits: { FitsSigned w64 length },
}

impl Least {
    /// Returns the least length.
    pub fn get(&self) -> i64
        ensures { LeastLength (length_listed self.now.length) result }
    {
        self.length
    }
}

// Returns the least length of a bundle, or `None` if there is no bundle.
fn length_of(bundle: Option<&Least>) -> Option<i64>
    ensures { result ≡ option_map (λ b. b.length) (option_copied bundle.entry) }
{
    match bundle {
        Some(bundle) => Some(bundle.length),
        None => None,
    }
}

impl Bundle for Least {
    type Arc = LengthArc;

    ghost bundle = { record {
      kind = lengths;
      sizes = length_sizes;
      Differ = LengthsDiffer;
      listed = λ form b. length_listed b.length;
      wants_memory = false;
    } };

    ghost laws = { length_kind };

    ghost sized = { length_sized };

    ghost differs = { length_differs };

    ghost canonical = { λ form b. length_canonical b.length };

    ghost same_forms = { λ b. length_kind.meaning.same_refl (length_listed b.length) };

    ghost fit = { λ form b. length_fit b.length b.fits };

    ghost same_numbers = { λ a. refl };

    fn of(_alloc: Global, arc: LengthArc) -> Result<Option<Least>, AllocError> {
        Ok(Some(Least { length: arc.length }))
    }

    fn is_arc(_arc: &LengthArc) -> bool {
        true
    }

    fn add(&mut self, arc: LengthArc) -> Result<(), BundleFault> {
        if arc.length < self.length {
            *self = Least { length: arc.length };
        }
        Ok(())
    }

    fn how(left: Option<&Least>, right: Option<&Least>) -> Option<How> {
        let left = length_of(left);
        let right = length_of(right);
        if left == right {
            return None;
        }
        Some(How::Lengths { left, right })
    }

    fn touch(&self) -> i64 {
        0
    }

    fn entries(&self) -> u64 {
        1
    }

    fn canon_len(&self, _form: Form) -> u64 {
        1
    }

    fn canon_arc(&self, i: u64, _form: Form) -> Option<LengthArc> {
        if i != 0 {
            return None;
        }
        Some(LengthArc {
            length: self.length,
        })
    }

    fn canon_after(&self, _arc: &LengthArc, _form: Form) -> Option<LengthArc> {
        None
    }
}
