//! `trace_picture [--file N]`: reads a trace, as `xtfs replay` prints it, from its standard input, and writes a picture of it, of all or of
//! file N alone, as an SVG to its standard output.
//!
//! `main` makes what stands for the standard streams, and ends with the status of `run`; its last line goes to standard error.
#![tactic(auto)]

mod picturing;
mod words;

use node_links::{StdinSource, StdoutSink};
use picturing::{run, tell};
use std::env;
use std::io::{self, ErrorKind};
use std::process::ExitCode;
use xt_base::Words;
use xt_messages::Status;

/// The words of the command line, after the program's name. Where one of them isn't UTF-8 an empty word stands for them, which asks for
/// nothing either. An error means that memory ran out.
fn words_of(rt: &HostRuntime) -> io::Result<Words> {
    let alloc = rt.alloc();
    let mut words = Words::new(alloc);
    let mut args = match env::args(rt) {
        Ok(args) => args,
        Err(error) if error.kind() == ErrorKind::InvalidData => {
            words.push(alloc, "")?;
            return Ok(words);
        }
        Err(error) => return Err(error),
    };
    let _name = args.next();
    for word in args {
        words.push(alloc, word.as_str())?;
    }
    Ok(words)
}

fn main(rt: HostRuntime) -> io::Result<ExitCode> {
    let alloc = rt.alloc();
    let words = words_of(&rt)?;
    let mut source = StdinSource::new(alloc, rt.reader())?;
    let mut sink = StdoutSink::new(io::writer(&rt));
    let status = run(alloc, words.as_slice(), &mut source, &mut sink);
    let mut told = StdoutSink::new(rt.stderr());
    tell(alloc, &mut told, &status);
    if matches!(&status, Status::Usage) {
        let _told = eprintln!(rt; "usage: trace_picture [--file N] <TRACE >PICTURE.svg");
    }
    Ok(ExitCode::from(status.code()))
}
