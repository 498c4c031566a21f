// A handle, which is what C holds of a work.
ghost use Rattle.std.specs.Prelude.{◌≡◌, Bool, Some, None, is_some};
ghost use Rattle.std.specs.Option.{option_map};

use crate::seal::{BoxParts, Seal, nowhere};
use crate::work::Work;
use std::alloc::Global;
use std::marker::Send;
use std::mem::replace;

/// A handle: it owns a work, or nothing. C declares it as `struct dnorm { void *work; bool full; }`, and begins with
/// one that is all zeros, which holds nothing.
#[repr(C)]
pub struct Handle {
    seal: Seal,
    full: bool,
    ghost agrees: { full ≡ is_some seal.work },
}

impl Handle {
    /// Returns a handle that holds nothing.
    pub fn empty() -> Handle
        ensures { result.seal.work ≡ None }
    {
        Handle {
            seal: Seal::empty(nowhere()),
            full: false,
        }
    }

    /// Returns a handle that holds this work.
    pub fn of(work: Box<Work>) -> Handle
        ensures { result.seal.work ≡ Some work.value }
    {
        Handle {
            seal: Seal::of(BoxParts::of(work)),
            full: true,
        }
    }

    /// Returns the work that the handle holds, if any.
    pub fn into_box(self, alloc: Global) -> Option<Box<Work>>
        ensures { option_map (λ b. b.value) result ≡ self.seal.work }
    {
        let Handle { seal, full } = self;
        if full {
            Some(seal.into_parts(alloc).into_box())
        } else {
            None
        }
    }

    /// Whether the handle holds a work.
    pub fn is_full(&self) -> bool
        ensures { result ≡ is_some self.now.seal.work }
    {
        self.full
    }

    /// Takes the work out of the handle, which then holds nothing.
    pub fn take(&mut self, alloc: Global) -> Option<Box<Work>>
        ensures value { option_map (λ b. b.value) result ≡ self.old.seal.work }
        ensures after { self.new.seal.work ≡ None }
    {
        replace(self, Handle::empty()).into_box(alloc)
    }

    /// Puts a work into the handle, and frees what the handle holds.
    pub fn put(&mut self, work: Box<Work>)
        ensures { self.new.seal.work ≡ Some work.value }
    {
        let alloc = *Box::allocator(&work);
        drop(replace(self, Handle::of(work)).into_box(alloc));
    }
}

/// Returns the handle. That this is accepted proves that a handle may go to another thread.
pub fn moved(handle: Handle) -> Handle
    ensures { result ≡ handle }
{
    sent(handle)
}

// Asks for the proof that a value may go to another thread.
fn sent<T: Send>(x: T) -> T
    ensures { result ≡ x }
{
    x
}
