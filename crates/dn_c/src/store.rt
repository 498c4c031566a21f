// Puts a new work into a handle.
ghost use Rattle.dn_c.specs.State.Works.{work_of, Stores};

use crate::handle::Handle;
use crate::status::{Status, fine, refused_with};
use crate::work::Work;
use dn_instance::Refusal;
use std::alloc::Global;

/// Puts a new work into a handle, which frees what it held, or returns that memory ran out. Then nothing changes.
pub(crate) fn store(alloc: Global, handle: &mut Handle, work: Work) -> Status
    ensures { Stores work (work_of handle.old) (work_of handle.new) result }
{
    match Box::new(alloc, work) {
        Ok(boxed) => {
            handle.put(boxed);
            fine()
        }
        Err(_) => refused_with(Refusal::Memory),
    }
}
