ghost use Rattle.std.specs.Prelude.{◌≤◌, length};
ghost use Rattle.be_script.specs.Limits.{IsWithinLimits};
ghost use Rattle.be_script.specs.Script.{declared_by};

use crate::board::Board;
use be_flat::flatten;
use be_geom::NoMemory;
use be_handler::Route;
use be_machine::Entry;
use be_message::{Message, Target, Text, Value};
use be_outside::MemorySink;
use be_port::Sender;
use be_reader::read;
use be_report::{put_lines, read_history};
use be_script::Script;
use be_written::{Note, Page, Runner, Said, Taken, write_history, write_note, write_screen};
use std::alloc::Global;

/// A sink that has the page's bytes, put line by line.
fn put(alloc: Global, page: &Page) -> Result<MemorySink, NoMemory> {
    let text = page.as_slice();
    let mut sink = MemorySink::new(alloc, text.len(), Vec::new(alloc)).map_err(|_| NoMemory)?;
    put_lines(text, &mut sink).map_err(|_| NoMemory)?;
    Ok(sink)
}

// ---- histories

/// Where a script ends and its history begins.
fn script_end(input: &[u8]) -> usize
    ensures { result ≤ length input.now }
{
    for place in 0..input.len() {
        if input[place..].starts_with(b"\nhistory ") {
            return place + 1;
        }
    }
    input.len()
}

/// Writes the history so many times, and reads it so many times. What it answers is the text.
pub fn told_rounds(
    alloc: Global,
    input: &[u8],
    writes: u32,
    reads: u32,
) -> Result<MemorySink, NoMemory> {
    let (text, told) = input.split_at(script_end(input));
    let Ok(script) = read(alloc, text) else {
        return Err(NoMemory);
    };
    let history = history_after(alloc, told, &script, reads)?;
    for _round in 0..writes {
        written(alloc, &script, &history)?;
    }
    written(alloc, &script, &history)
}

/// Reads the history in each of the rounds, and once more to tell it.
fn history_after(
    alloc: Global,
    told: &[u8],
    script: &Script,
    rounds: u32,
) -> Result<Vec<Entry>, NoMemory>
    requires { IsWithinLimits (declared_by script.now) }
{
    for _round in 0..rounds {
        let _history = read_history(alloc, told, script).map_err(|_| NoMemory)?;
    }
    read_history(alloc, told, script).map_err(|_| NoMemory)
}

fn written(alloc: Global, script: &Script, history: &[Entry]) -> Result<MemorySink, NoMemory> {
    let mut page = Page::new(alloc);
    write_history(&mut page, script, history)?;
    put(alloc, &page)
}

// ---- notes

/// Writes so many letters that were taken, in each of the rounds.
pub fn note_rounds(alloc: Global, count: u32, rounds: u32) -> Result<MemorySink, NoMemory> {
    let script = read(alloc, b"screen 4 3\nwindow a 0 0 1 1\napp m\nend\n").map_err(|_| NoMemory)?;
    let mut message = Message::new(alloc, 0x5049_4e47);
    let text = Text::new(alloc, b"a message of a window")?;
    message
        .add("text", Value::Text(text))
        .map_err(|_| NoMemory)?;
    message
        .add("number", Value::Int(-2_000_000))
        .map_err(|_| NoMemory)?;
    let bytes = flatten(alloc, &message)?;
    for _round in 0..rounds {
        noted(alloc, &script, &bytes, count)?;
    }
    noted(alloc, &script, &bytes, count)
}

fn noted(
    alloc: Global,
    script: &Script,
    message: &[u8],
    count: u32,
) -> Result<MemorySink, NoMemory> {
    let mut page = Page::new(alloc);
    for number in 0..count {
        let taken = Taken {
            sender: Sender::App(0),
            hop: 0,
            target: Target::Window,
            route: Route::Handler(Target::View(0)),
            message: Said::Spelt(message),
        };
        write_note(
            &mut page,
            script,
            Runner::Looper(0),
            &Note::Took(u64::from(number), taken),
        )?;
    }
    put(alloc, &page)
}

// ---- screens

/// Writes the screen in each of the rounds.
pub fn screen_rounds(alloc: Global, board: &Board, rounds: u32) -> Result<MemorySink, NoMemory> {
    for _round in 0..rounds {
        shown(alloc, board)?;
    }
    shown(alloc, board)
}

fn shown(alloc: Global, board: &Board) -> Result<MemorySink, NoMemory> {
    let mut page = Page::new(alloc);
    write_screen(&mut page, board)?;
    put(alloc, &page)
}

// ---- reports of a history and a screen

/// Writes the history and the screen behind it in each of the rounds.
pub fn whole_rounds(
    alloc: Global,
    input: &[u8],
    board: &Board,
    rounds: u32,
) -> Result<MemorySink, NoMemory> {
    let (text, told) = input.split_at(script_end(input));
    let Ok(script) = read(alloc, text) else {
        return Err(NoMemory);
    };
    let history = history_after(alloc, told, &script, 0)?;
    for _round in 0..rounds {
        both(alloc, &script, &history, board)?;
    }
    both(alloc, &script, &history, board)
}

fn both(
    alloc: Global,
    script: &Script,
    history: &[Entry],
    board: &Board,
) -> Result<MemorySink, NoMemory> {
    let mut page = Page::new(alloc);
    write_history(&mut page, script, history)?;
    write_screen(&mut page, board)?;
    put(alloc, &page)
}
