//! The program: it runs the script on standard input and writes its transcript to standard output, by `run_alone` of `script_run`
//! over the ports of `port_io`.
#![tactic(auto)]

use port_io::{StdSink, StdSource};
use script_run::{Status, run_alone};
use std::env;
use std::io::ErrorKind;
use std::process::ExitCode;

fn main(rt: HostRuntime) -> ExitCode {
    ExitCode::from(run(&rt).number())
}

/// Runs the words behind the program's name.
fn run(rt: &HostRuntime) -> Status {
    let args = match env::args(rt) {
        Ok(args) => args,
        Err(error) if error.kind() == ErrorKind::OutOfMemory => return Status::NoMemory,
        Err(_) => return Status::Usage,
    };
    let mut words = Vec::new(rt.alloc());
    for word in args.skip(1) {
        if words.push(word).is_err() {
            return Status::NoMemory;
        }
    }
    let mut source = StdSource::new(rt.stdin());
    let mut sink = StdSink::new(rt.stdout());
    run_alone(rt.alloc(), words.as_slice(), &mut source, &mut sink).status
}
