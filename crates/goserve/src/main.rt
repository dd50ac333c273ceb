//! Checks the Go file on the standard input: `goserve check -`.
#![tactic(auto)]

mod answering;
mod chunk;
mod file;
mod form;
mod line;
mod names;
mod part;
mod reading;
mod run;
mod status;
#[cfg(test)]
mod tests;
mod token;
mod universe;
mod writing;

use crate::run::run;
use crate::status::text_of;
use gs_outside::adapters::{ReaderSource, WriterSink};
use std::alloc::AllocError;
use std::process::ExitCode;
use std::rt::Env;
use std::{env, io};

/// The words of the command line. Words that cannot be read as text are no command.
fn words(rt: &(impl Env + AllocGlobal)) -> Result<Vec<String>, AllocError> {
    let mut words = Vec::new(rt.alloc());
    if let Ok(args) = env::args(rt) {
        for word in args.skip(1) {
            words.push(word)?;
        }
    }
    Ok(words)
}

fn main(rt: HostRuntime) -> ExitCode {
    let alloc = rt.alloc();
    let status = match words(&rt) {
        Err(_) => 7,
        Ok(words) => {
            let mut source = ReaderSource::new(rt.reader());
            let mut sink = WriterSink::new(io::writer(&rt));
            run(alloc, words.as_slice(), &mut source, &mut sink).status
        }
    };
    if status >= 2 {
        let text = text_of(status);
        let _ = eprintln!(rt; "goserve: {text}");
    }
    ExitCode::from(status)
}
