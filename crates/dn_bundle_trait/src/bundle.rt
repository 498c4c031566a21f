// The trait of bundles, which represent what the parallel arcs of one ordered pair mean.
ghost use Rattle.std.specs.Prelude.{◌≡◌, ◌-◌, ◌^◌, pos, ◌≤ℤ◌, ◌<ℤ◌, ◌↔◌, [], ◌∷◌, ◌++◌, length, IsTrue, IfOk, IfSome, OnOk, OnErr, Contains, slice_get};
ghost use Rattle.std.specs.List.{AllByRecursion};
ghost use Rattle.std.specs.Option.{option_copied};
ghost use Rattle.dn_arc_theory.specs.State.Bundles.{AreDifferences, AreSizes, BundleFacts, Gains, IsAfter, IsBundleOf, IsHow, IsKind, NumbersFit, PassesSum, Widens, listed_of, meant};
ghost use Rattle.dn_arc_theory.specs.State.CanonArcs.{NeedsMore};
ghost use Rattle.dn_arc_theory.specs.declared.arc.Form.{Form};

use dn_arc_theory::{Form, How, Parts};
use std::alloc::{AllocError, Global};
use thiserror::Error;

/// Why a bundle does not take an arc.
#[derive(Clone, Copy, Debug, PartialEq, Eq, Error)]
pub enum BundleFault {
    /// The capacities would sum to more than 2^63-1.
    #[error("the capacities sum past 2^63-1")]
    Sum,
    /// An allocation failed.
    #[error("out of memory")]
    Memory,
}

/// What the arcs of one ordered pair mean, merged as they arrive.
pub trait Bundle: Sized + Drop {
    type Arc: Parts;

    /// Specifies the bundle: the kind of its arcs, what must be kept of them, how they can differ, the canonical arcs
    /// that it lists, and whether adding an arc may run out of memory.
    ghost bundle: { BundleFacts Self Self.Arc };

    /// Returns the bundle of one arc, or `None` if the arc means the same as no arcs.
    ///
    /// # Errors
    ///
    /// The only error is that an allocation fails.
    fn of(alloc: Global, arc: Self::Arc) -> Result<Option<Self>, AllocError>
        requires { bundle.kind.IsArc arc }
        ensures ok { IfOk result (IsBundleOf bundle arc) }
        ensures fits { bundle.kind.capacity (arc ∷ []) ≤ℤ pos (2 ^ 63 - 1) }
        ensures memory { OnErr result (IsTrue bundle.wants_memory) }
        ensures widens { OnErr result (NeedsMore bundle.sizes [] arc) };

    /// Whether a problem may have this arc.
    fn is_arc(arc: &Self::Arc) -> bool
        ensures { IsTrue result ↔ bundle.kind.IsArc arc.now };

    /// Adds an arc. Returns `Sum` if the capacities would sum to more than 2^63-1, which is checked before any
    /// allocation, and `Memory` if an allocation fails. Allocates only for an arc that makes another entry, or spreads
    /// the forced units. After an error, the bundle is unchanged.
    fn add(&mut self, arc: Self::Arc) -> Result<(), BundleFault>
        requires { bundle.kind.IsArc arc }
        ensures ok { OnOk result (Gains bundle self.old self.new arc) }
        ensures err { OnErr result (self.new ≡ self.old) }
        ensures sum { (result ≡ Err BundleFault.Sum) ↔ PassesSum bundle self.old arc }
        ensures memory { (result ≡ Err BundleFault.Memory) → IsTrue bundle.wants_memory }
        ensures widens { (result ≡ Err BundleFault.Memory) → Widens bundle self.old arc };

    /// Whether both bundles mean the same.
    fn same(&self, other: &Self) -> bool
        ensures { IsTrue result ↔ bundle.kind.Same (meant bundle self.now) (meant bundle other.now) }
    {
        Self::how(Some(self), Some(other)).is_none()
    }

    /// Returns the first difference between two bundles, or `None` if they mean the same. An absent bundle represents
    /// no arcs.
    fn how(left: Option<&Self>, right: Option<&Self>) -> Option<How>
        ensures { IsHow bundle (option_copied left.entry) (option_copied right.entry) result };

    /// Returns how many entries the arcs make.
    fn entries(&self) -> u64
        ensures { result ≡ bundle.sizes.entries (meant bundle self.now) };

    /// Returns how many canonical arcs the bundle lists in this form.
    fn canon_len(&self, form: Form) -> u64
        ensures { result ≡ length (bundle.listed form self.now) };

    /// Returns the canonical arc at `i`, counted from 0, or `None` if `i` is not below `canon_len`.
    fn canon_arc(&self, i: u64, form: Form) -> Option<Self::Arc>
        ensures { result ≡ slice_get (bundle.listed form self.now) i };

    /// Returns the canonical arc after this one, or `None` after the last, so that a walk can continue from any arc.
    /// After any other arc, it returns some canonical arc or `None`.
    fn canon_after(&self, arc: &Self::Arc, form: Form) -> Option<Self::Arc>
        ensures after { IsAfter (bundle.listed form self.now) arc.now result }
        ensures listed { IfSome result (Contains (bundle.listed form self.now)) };

    /// Reads a number of the bundle that lies in memory of its own, or returns 0 if there is none, so that a later call
    /// does not wait for this memory. Hint.
    fn touch(&self) -> i64;

    /// The laws of the kind of arcs.
    ghost laws: { IsKind bundle.kind };

    /// The laws of what must be kept of arcs.
    ghost sized: { AreSizes bundle.kind bundle.sizes };

    /// The laws of first differences.
    ghost differs: { AreDifferences bundle.kind bundle.Differ };

    /// The listed arcs are canonical.
    ghost canonical: { (form : Form) (b : Self) → bundle.kind.IsCanon form (bundle.listed form b) };

    /// The arcs listed in either form mean the same.
    ghost same_forms: { (b : Self) → bundle.kind.Same (bundle.listed Form.Two b) (meant bundle b) };

    /// The numbers of the listed arcs fit 64 signed bits.
    ghost fit: { (form : Form) (b : Self) → NumbersFit bundle.kind (bundle.listed form b) };

    /// The numbers of an arc are those of its line.
    ghost same_numbers: { (a : Self.Arc) → bundle.kind.numbers a ≡ Self.Arc.numbers a };
}

/// Merges these arcs into a bundle. Returns `None` if they mean the same as no arcs.
///
/// # Errors
///
/// Returns `Sum` if the capacities sum to more than 2^63-1, and `Memory` if an allocation fails.
pub fn bundle_of<B: Bundle>(alloc: Global, arcs: &[B::Arc]) -> Result<Option<B>, BundleFault>
    requires { AllByRecursion B.bundle.kind.IsArc arcs.now }
    ensures ok { IfOk result (λ b. B.bundle.kind.Same (listed_of (meant B.bundle) b) arcs.now) }
    ensures fits { IfOk result (λ b. B.bundle.kind.capacity arcs.now ≤ℤ pos (2 ^ 63 - 1)) }
    ensures sum { (result ≡ Err BundleFault.Sum) → pos (2 ^ 63 - 1) <ℤ B.bundle.kind.capacity arcs.now }
    ensures memory { (result ≡ Err BundleFault.Memory) → IsTrue B.bundle.wants_memory }
{
    let mut bundle = None;
    for arc in arcs {
        if let Err(fault) = add_to(alloc, &mut bundle, *arc) {
            return Err(fault);
        }
    }
    Ok(bundle)
}

// Adds an arc to a bundle, or makes the bundle of the arc if there is none. After an error, the bundle is unchanged.
fn add_to<B: Bundle>(alloc: Global, bundle: &mut Option<B>, arc: B::Arc) -> Result<(), BundleFault>
    requires { B.bundle.kind.IsArc arc }
    ensures ok { OnOk result (B.bundle.kind.Same (listed_of (meant B.bundle) bundle.new)
        (listed_of (meant B.bundle) bundle.old ++ arc ∷ [])) }
    ensures sum { (result ≡ Err BundleFault.Sum)
        ↔ (pos (2 ^ 63 - 1) <ℤ B.bundle.kind.capacity (listed_of (meant B.bundle) bundle.old ++ arc ∷ [])) }
    ensures memory { (result ≡ Err BundleFault.Memory) → IsTrue B.bundle.wants_memory }
{
    match bundle {
        Some(bundle) => bundle.add(arc),
        None => match B::of(alloc, arc) {
            Ok(one) => {
                *bundle = one;
                Ok(())
            }
            Err(_) => Err(BundleFault::Memory),
        },
    }
}
