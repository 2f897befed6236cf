//! The program of chains: it makes the real ends, and ends with the exit code that `run_chain_to_exit` answers.
#![tactic(auto)]

use stark_chain::{Status, StdSink, StdSource, exit_code, run_chain_to_exit};
use std::alloc::AllocError;
use std::process::ExitCode;
use std::{env, io};

fn main(rt: HostRuntime) -> ExitCode {
    let alloc = rt.alloc();
    let words = match env::args(&rt) {
        Ok(args) => args.skip(1).collect(alloc),
        Err(error) if error.kind() == io::ErrorKind::OutOfMemory => Err(AllocError),
        // A word that is no text names no command, and neither do no words.
        Err(_) => Ok(Vec::new(alloc)),
    };
    let mut source = StdSource::new(rt.reader());
    let mut sink = StdSink::new(io::writer(&rt));
    match words {
        Ok(words) => run_chain_to_exit(alloc, &words, &mut source, &mut sink),
        Err(AllocError) => exit_code(Status::OutOfMemory),
    }
}
