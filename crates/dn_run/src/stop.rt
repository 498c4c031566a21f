// Why a command stops before it is done.
ghost use Rattle.std.specs.Prelude.{◌≡◌};
ghost use Rattle.dn_run.specs.Answers.{Tells, refusal_status, status_of};
ghost use Rattle.dn_run.specs.State.Endings.{IsNamed, stopped, unwritten};
ghost use Rattle.dn_run.specs.Streams.{sink_run};

use dn_instance::{CompanionFault, Held, Refusal};
use dn_report::{put_fault_line, put_unfit_line};
use dn_sink::Sink;

// Why a command stops before it is done.
#[derive(Clone, Copy)]
pub(crate) enum Stop<'a> {
    // The text of this name is refused, for this reason.
    Refused {
        name: &'a str,
        refusal: Refusal,
    },
    // The companion of this name does not fit, for this reason.
    Unfit {
        name: &'a str,
        fault: CompanionFault,
    },
    // Standard output failed.
    Cut,
}

impl Stop<'_> {
    // Returns the exit status: 2 for a fault of a text, a canonical text that is too large, or a companion that does
    // not fit, and 4 for any other reason.
    pub(crate) fn status(&self) -> u8
        ensures { result ≡ status_of (stopped self.now) }
    {
        match self {
            Stop::Refused { refusal, .. } => refusal_status(refusal),
            Stop::Unfit { .. } => 2,
            Stop::Cut => 4,
        }
    }

    // Puts the line that says why the command stopped, and flushes the sink. Ignores a fault of the sink.
    pub(crate) fn tell<E: Sink>(&self, err: &mut E)
        ensures { Tells (sink_run E.sink (err.old, err.new)) (stopped self.now) }
    {
        let _ = match self {
            Stop::Refused { name, refusal } => put_fault_line(err, name, refusal),
            Stop::Unfit { name, fault } => put_unfit_line(err, name, fault),
            Stop::Cut => put_fault_line(err, "", &Refusal::Write),
        };
    }
}

// Returns the result of reading the text of this name, where the command stops if the text is refused.
pub(crate) fn or_stop<'a>(name: &'a str, read: Result<Held, Refusal>) -> Result<Held, Stop<'a>>
    ensures { IsNamed name.now read result }
{
    match read {
        Ok(held) => Ok(held),
        Err(refusal) => Err(Stop::Refused { name, refusal }),
    }
}

// Returns why a command stops that could not write the canonical text for this name.
pub(crate) fn unwritten(name: &str, refusal: Refusal) -> Stop<'_>
    ensures { stopped result ≡ unwritten name.entry.now refusal }
{
    match refusal {
        Refusal::Write => Stop::Cut,
        _ => Stop::Refused { name, refusal },
    }
}

// Returns the exit status of a refusal.
fn refusal_status(refusal: &Refusal) -> u8
    ensures { result ≡ refusal_status refusal.now }
{
    match refusal {
        Refusal::Text { .. } | Refusal::CountTooLarge => 2,
        Refusal::Memory | Refusal::Read | Refusal::Endless | Refusal::Write => 4,
    }
}
