// Whether a companion fits a graph, as C has it.
ghost use Rattle.std.specs.Prelude.{◌≡◌};
ghost use Rattle.dn_c.specs.State.Fits.{fit_of, neither, Judges};
ghost use Rattle.dn_c.specs.State.Reads.{shown_work};

use crate::shown::Shown;
use crate::work::Work;
use dn_instance::{CompanionFault, check_companion};

/// Whether a companion fits a graph, and if not, why.
#[repr(C)]
#[derive(Clone, Copy, Drop)]
pub struct Fit {
    /// 0 if it fits, 35 if it names a node above NODES, 36 if they are not a graph and a companion, or 255 if a handle
    /// holds no instance.
    pub code: u8,
    /// The first such node, else 0.
    pub node: i64,
}

/// Returns the answer where a handle holds no instance.
pub fn neither() -> Fit
    ensures { result ≡ neither }
{
    Fit { code: 255, node: 0 }
}

// Returns the answer to a companion's check.
fn fit_of(check: Result<(), CompanionFault>) -> Fit
    ensures { result ≡ fit_of check }
{
    match check {
        Ok(()) => Fit { code: 0, node: 0 },
        Err(fault) => Fit {
            code: fault.number(),
            node: match fault {
                CompanionFault::NotInGraph { id } => id,
                CompanionFault::NotKinds => 0,
            },
        },
    }
}

/// Returns whether the nodes that a companion names are nodes of the graph.
pub fn judge(graph: &Shown, companion: &Shown) -> Fit
    ensures { Judges (shown_work graph.now) (shown_work companion.now) result }
{
    match (graph.get(), companion.get()) {
        (Some(Work::Read(graph, _)), Some(Work::Read(companion, _))) => {
            fit_of(check_companion(graph, companion))
        }
        _ => neither(),
    }
}
