ghost use Rattle.std.specs.Prelude.{map, string_bytes};
ghost use Rattle.app_server.specs.Commands.{alone_command_of, command_of};
ghost use Rattle.app_server.specs.Headline.{turn, AnswersWords};

use crate::archive::archive;
use crate::buttons::buttons;
use crate::check::check;
use crate::command::{CommandWords, command};
use crate::drill::drill;
use crate::explain::explain;
use crate::make::make;
use crate::picture::picture;
use crate::replay::replay;
use crate::run::run;
use crate::serial::serial;
use crate::status::Status;
use crate::unarchive::unarchive;
use be_outside::{Gate, Sink, Source};
use std::alloc::Global;
use std::sync::Wait;
use std::thread::Threads;

/// Serves the words from a source to a sink, and says how it went. Only `run` starts threads, asks
/// the gate, and may never return; all other words are those of `serve_alone`.
pub fn serve<R: Threads + Wait + Sync, S: Source, K: Sink, G: Gate + Sync>(
    rt: &R,
    alloc: Global,
    words: &[String],
    source: &mut S,
    sink: &mut K,
    gate: &G,
) -> Status
    ensures { AnswersWords (command_of (map string_bytes words.now))
        (turn S.left S.faults source.old source.new)
        (turn K.held K.faults sink.old sink.new) result }
{
    match command(words) {
        Some(CommandWords::Run) => run(rt, alloc, source, sink, gate),
        Some(CommandWords::Serial(_) | CommandWords::Check | CommandWords::Make(_))
        | Some(CommandWords::Drill(_) | CommandWords::Replay | CommandWords::Explain(..))
        | Some(CommandWords::Picture(..) | CommandWords::Archive(_))
        | Some(CommandWords::Unarchive | CommandWords::Buttons)
        | None => serve_alone(alloc, words, source, sink),
    }
}

/// Serves the words without threads, waits for nobody and always returns. `run` is no command here.
pub fn serve_alone<S: Source, K: Sink>(
    alloc: Global,
    words: &[String],
    source: &mut S,
    sink: &mut K,
) -> Status
    ensures { AnswersWords (alone_command_of (map string_bytes words.now))
        (turn S.left S.faults source.old source.new)
        (turn K.held K.faults sink.old sink.new) result }
{
    match command(words) {
        Some(CommandWords::Serial(seed)) => serial(alloc, seed, source, sink),
        Some(CommandWords::Check) => check(alloc, source, sink),
        Some(CommandWords::Make(number)) => make(alloc, number, source, sink),
        Some(CommandWords::Drill(number)) => drill(alloc, number, source, sink),
        Some(CommandWords::Replay) => replay(alloc, source, sink),
        Some(CommandWords::Explain(x, y)) => explain(alloc, x, y, source, sink),
        Some(CommandWords::Picture(width, height)) => picture(alloc, width, height, source, sink),
        Some(CommandWords::Archive(window)) => archive(alloc, window, source, sink),
        Some(CommandWords::Unarchive) => unarchive(alloc, source, sink),
        Some(CommandWords::Buttons) => buttons(alloc, source, sink),
        Some(CommandWords::Run) | None => Status::Usage,
    }
}
