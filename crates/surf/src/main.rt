//! The program `surf`: the words of the command line, the files of the machine and the standard streams.
//!
//! All that it promises is `surf_cli`'s. This part hands over the words, which no clause speaks of, and ends with the
//! number of the status.
#![tactic(auto)]

use std::alloc::AllocError;
use std::env;
use std::io::ErrorKind;
use std::process::ExitCode;
use surf_base::{RealFiles, RealSink};
use surf_cli::Status;

/// The words after the program's name. Where one of them is no text there are none, which no command is.
fn words(rt: &HostRuntime) -> Result<Vec<String>, AllocError> {
    match env::args(rt) {
        Ok(args) => args.skip(1).collect(rt.alloc()),
        Err(error) if error.kind() == ErrorKind::OutOfMemory => Err(AllocError),
        Err(_) => Ok(Vec::new(rt.alloc())),
    }
}

fn main(rt: HostRuntime) -> ExitCode {
    let status = match words(&rt) {
        Ok(words) => surf_cli::surf(
            rt.alloc(),
            &words,
            &mut RealFiles::new(&rt),
            &mut RealSink::new(rt.stdout()),
            &mut RealSink::new(rt.stderr()),
        ),
        Err(_) => Status::Memory,
    };
    ExitCode::from(status.number())
}
