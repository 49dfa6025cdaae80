//! The application server: reads a script of windows, views and applications, runs it, and writes
//! the history of all steps, the traces of the messages and the screen.
#![tactic(auto)]

ghost use Rattle.std.specs.Prelude.{◌≡◌, ◌⊎◌, IfErr};

mod answer;
mod archive;
mod buttons;
mod check;
mod command;
mod drill;
mod explain;
mod first_word;
mod input;
mod laws;
mod make;
mod picture;
mod replay;
mod run;
mod script;
mod serial;
mod serve;
mod status;
#[cfg(test)]
mod tests;
mod told;
mod unarchive;

use be_outside::{OpenGate, ReaderSource, WriterSink};
use serve::serve;
use status::Status;
use std::process::ExitCode;
use std::{env, io};

/// Serves standard input and output by the words on the command line. What the status has to say
/// goes to standard error, and its number is the program's exit status.
fn main(rt: HostRuntime) -> ExitCode {
    let mut source = ReaderSource::new(rt.stdin());
    let mut sink = WriterSink::new(rt.stdout());
    let status = match words(&rt) {
        Ok(words) => serve(
            &rt,
            rt.alloc(),
            words.as_slice(),
            &mut source,
            &mut sink,
            &OpenGate,
        ),
        Err(status) => status,
    };
    if status != Status::Finished {
        // Where standard error can't be written the exit status says it alone.
        let _ = eprintln!(rt; "{status}");
    }
    ExitCode::from(status.number())
}

/// The words behind the program's name, or what is answered where there are none to serve: words
/// that aren't UTF-8 are no command's.
fn words(rt: &HostRuntime) -> Result<Vec<String>, Status>
    ensures { IfErr result (λ status. (status ≡ Status.Usage) ⊎ (status ≡ Status.NoMemory)) }
{
    let args = match env::args(rt) {
        Ok(args) => args,
        Err(error) => match error.kind() {
            io::ErrorKind::OutOfMemory => return Err(Status::NoMemory),
            _ => return Err(Status::Usage),
        },
    };
    let mut words = Vec::new(rt.alloc());
    for word in args.skip(1) {
        if words.push(word).is_err() {
            return Err(Status::NoMemory);
        }
    }
    Ok(words)
}
