//! The program `railplan`: it runs the command that the words of the command line ask for.
//!
//! It hands these words, the system's files and its output to `run`, with a trace that keeps no line. It ends with the
//! status that `run` answers, or with 10 where the words couldn't be had. It states nothing of its own: what a run owes
//! is the contract of `run`, in `schematic_main`. The stored run (`args`, `data`, `stdout`) shows the program at work;
//! the launcher `railplan` builds and runs it. No crate uses this one.
#![tactic(auto)]

use outside_io::{HostFiles, HostOut};
use refute_log::NoLog;
use schematic_main::run;
use std::env;
use std::process::ExitCode;

/// The words of the command line, without the program's own name.
fn command_line(rt: &HostRuntime) -> Option<Vec<String>> {
    let mut words = env::args(rt).ok()?;
    let _ = words.next();
    words.collect(rt.alloc()).ok()
}

fn main(rt: HostRuntime) -> ExitCode {
    match command_line(&rt) {
        Some(words) => {
            let mut files = HostFiles::new(&rt);
            let mut out = HostOut::new(&rt);
            let mut trace = NoLog::new();
            ExitCode::from(run(rt.alloc(), &words, &mut files, &mut out, &mut trace))
        }
        None => ExitCode::from(10),
    }
}
