// A `Box<Work>` as its pointer, or nothing. This is what C holds. C knows nothing of what it points to.
ghost use Rattle.std.specs.Prelude.{◌≡◌, Option, Some, None, IsSome};
ghost use denote.RawPtr.{null_ptr};
ghost use Rattle.dn_c.specs.declared.work.Work.{Work};
ghost use Rattle.dn_c.specs.State.Sealed.{work_coded, seal_owns};

mod box_parts;

use crate::work::Work;
pub(crate) use box_parts::BoxParts;
use std::alloc::Global;
use std::marker::{Model, Send};
use std::ptr::null_mut;

/// A pointer to a work that it owns, or to nothing.
#[repr(C)]
#[derive(Drop)]
pub struct Seal {
    ptr: *mut u8,
    pub ghost work: { Option Work } by { work_coded },
}

impl Model for Seal {
    ghost also_owns = { λ s. seal_owns s.ptr s.work };
}

// Proved in `proofs/seal/Seal/TheSendSync`.
unsafe impl Send for Seal {}

impl Seal {
    /// Returns a seal that owns nothing. The pointer is never read.
    pub fn empty(ptr: *mut u8) -> Seal
        ensures { result.work ≡ None }
    {
        Seal { ptr }
    }

    /// Returns a seal that owns the work of these parts. The pointer loses its type, since no type that C sees may
    /// reach a number of 128 bits, as a work does.
    pub fn of(parts: BoxParts<Work, Global>) -> Seal
        ensures { result.work ≡ Some parts.value }
    {
        let BoxParts { ptr, alloc: _alloc } = parts;
        let ptr = ptr as *mut u8;
        Seal { ptr }
    }

    /// Returns the parts of the work. The pointer gets its type back.
    pub fn into_parts(self, alloc: Global) -> BoxParts<Work, Global>
        requires { IsSome self.work }
        ensures { Some result.value ≡ self.work }
    {
        let ptr = self.ptr as *mut Work;
        BoxParts { ptr, alloc }
    }
}

/// Returns a pointer to nothing, in a function of its own, which the prover asks for.
pub fn nowhere() -> *mut u8
    ensures { result ≡ null_ptr }
{
    null_mut()
}
