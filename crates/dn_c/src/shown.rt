// A handle that is only read: the same bytes as those of a `Handle`, lent for a while.
ghost use Rattle.std.specs.Prelude.{◌≡◌, Bool, Option, Some, None, IsSome, is_some};
ghost use Rattle.std.specs.Option.{option_map};
ghost use Rattle.dn_c.specs.declared.work.Work.{Work};
ghost use Rattle.dn_c.specs.State.Sealed.{work_coded, seal_owns, seal_shares};

use crate::work::Work;
use std::marker::{Model, Sync};

/// A pointer to a work that it owns, or to nothing, as a `Seal`. It may be read behind a `&`, so no function that C
/// calls can name it.
#[derive(Drop)]
pub struct Open {
    ptr: *const Work,
    pub ghost work: { Option Work } by { work_coded },
}

impl Model for Open {
    ghost also_owns = { λ s. seal_owns s.ptr s.work };

    ghost also_shares = { λ s _ κ. seal_shares s.ptr s.work κ };
}

// Proved in `proofs/shown/Open/TheSendSync`.
unsafe impl Sync for Open {}

impl Open {
    /// Lends the work.
    pub fn get(&self) -> &Work
        requires { IsSome self.now.work }
        ensures { Some result.now ≡ self.now.work }
    {
        unsafe { &*self.ptr }
    }
}

/// What a handle is behind a `const dnorm *`.
#[repr(C)]
#[derive(Drop)]
pub struct Shown {
    seal: Open,
    full: bool,
    ghost agrees: { full ≡ is_some seal.work },
}

impl Shown {
    /// Lends the work that the handle holds, if any.
    pub fn get(&self) -> Option<&Work>
        ensures { option_map (λ w. w.now) result ≡ self.now.seal.work }
    {
        if self.full {
            Some(self.seal.get())
        } else {
            None
        }
    }
}

/// Returns the handle. That this is accepted proves that several threads may read one handle.
pub fn read_by_many(handle: &Shown) -> &Shown
    ensures { result.now ≡ handle.now }
{
    shared(handle)
}

// Asks for the proof that a value may be read by several threads.
fn shared<T: Sync>(x: &T) -> &T
    ensures { result.now ≡ x.now }
{
    x
}
