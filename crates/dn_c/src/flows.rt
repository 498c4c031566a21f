// Puts a flow on canonical arcs back on arc lines, as C has it.
ghost use Rattle.std.specs.Prelude.{◌≡◌, length};
ghost use Rattle.dn_c.specs.State.Flows.{SpreadsHeld, not_a_flow};
ghost use Rattle.dn_c.specs.State.Reads.{shown_work};

use crate::outputs::form_numbered;
use crate::shown::Shown;
use crate::status::{Status, fine, wrong_call};
use crate::work::Work;
use dn_arc_lines::ArcLine;
use dn_flow::{PairShare, SpreadFault, spread};

/// Puts a flow on the canonical arcs of the instance back on its arc lines.
pub fn spread_on(
    handle: &Shown,
    form: u8,
    flow: &[i64],
    lines: &[ArcLine],
    shares: &mut [PairShare],
    units: &mut [i64],
) -> Status
    ensures { SpreadsHeld (shown_work handle.now) form flow.now lines.now
        (length shares.old) units.old units.new result }
{
    match handle.get() {
        Some(Work::Read(held, _)) => {
            match spread(held, form_numbered(form), flow, lines, shares, units) {
                Ok(()) => fine(),
                Err(SpreadFault::NotAFlow) => not_a_flow(),
                Err(SpreadFault::NoGraph) => wrong_call(),
                Err(SpreadFault::NoRoom) => wrong_call(),
            }
        }
        _ => wrong_call(),
    }
}

// Returns the status where the flow is none.
fn not_a_flow() -> Status
    ensures { result ≡ not_a_flow }
{
    Status {
        code: 42,
        place: 0,
        line: 0,
    }
}
