//! The program `dnorm`. It prints what DIMACS network instances contain, their first faults and differences, and their
//! canonical texts. `main` passes the words of the command line, what the host opens, and its standard output and error
//! to `run_on`.
#![tactic(auto)]

use dn_host::opened_files::OpenedFiles;
use dn_host::{HostDevice, HostOpener, Retried, out_of, words_of};
use dn_run::run_on;
use dn_sink::ToWrite;
use std::process::ExitCode;

fn main(rt: HostRuntime) -> ExitCode {
    let mut err = ToWrite::new(Retried {
        device: HostDevice {
            writer: rt.stderr(),
        },
    });
    let words = words_of(&rt);
    let mut opener = HostOpener { host: &rt };
    let mut out = out_of(&rt);
    let mut files = OpenedFiles::new(rt.alloc(), &mut opener);
    ExitCode::from(run_on(rt.alloc(), &words, &mut files, &mut out, &mut err))
}
