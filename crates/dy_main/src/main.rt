//! The program: the words after its name, standard input and output, and an exit status.
#![tactic(auto)]

use dy_io::{StdinSource, StdoutSink};
use dy_tool::{Status, tool};
use std::env;
use std::io::ErrorKind;
use std::process::ExitCode;

/// The words after the program's name. Words that are no text are no words at all.
fn words(rt: &HostRuntime) -> Result<Vec<String>, Status> {
    match env::args(rt) {
        Ok(args) => match args.skip(1).collect(rt.alloc()) {
            Ok(words) => Ok(words),
            Err(_) => Err(Status::Memory),
        },
        Err(error) if error.kind() == ErrorKind::OutOfMemory => Err(Status::Memory),
        Err(_) => Ok(Vec::new(rt.alloc())),
    }
}

fn run(rt: &HostRuntime) -> Status {
    let mut source = StdinSource::new(rt.stdin());
    let mut sink = StdoutSink::new(rt.stdout());
    match words(rt) {
        Ok(words) => tool(rt.alloc(), &words, &mut source, &mut sink),
        Err(status) => status,
    }
}

fn main(rt: HostRuntime) -> ExitCode {
    ExitCode::from(run(&rt).number())
}
