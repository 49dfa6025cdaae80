ghost use Rattle.be_made.specs.Drawing.{IsWritten, texts_from};
ghost use Rattle.be_made.specs.Made.{app_text, command_text, locked_text};
ghost use Rattle.std.specs.Prelude.{OnOk};

use crate::draws::Draws;
use crate::words::{write_color, write_distance, write_name, write_number};
use be_geom::NoMemory;

/// Four applications.
pub(crate) fn write_apps(text: &mut Vec<u8>, draws: &mut Draws) -> Result<(), NoMemory>
    ensures { OnOk result (IsWritten (texts_from app_text 0 4) draws.old draws.new
        text.old.items text.new.items) }
{
    for app in 0..4u32 {
        write_app(text, draws, app)?;
    }
    Ok(())
}

fn write_app(text: &mut Vec<u8>, draws: &mut Draws, app: u32) -> Result<(), NoMemory>
    ensures { OnOk result (IsWritten (app_text app) draws.old draws.new
        text.old.items text.new.items) }
{
    text.extend_from_slice(b"app ")?;
    write_name(text, b'a', app)?;
    text.push(b'\n')?;
    write_steps(text, draws)?;
    text.extend_from_slice(b"end\n")?;
    Ok(())
}

/// Forty commands, each under the lock of its window.
fn write_steps(text: &mut Vec<u8>, draws: &mut Draws) -> Result<(), NoMemory>
    ensures { OnOk result (IsWritten (texts_from locked_text 0 40) draws.old draws.new
        text.old.items text.new.items) }
{
    for step in 0..40u32 {
        write_step(text, draws, step)?;
    }
    Ok(())
}

fn write_step(text: &mut Vec<u8>, draws: &mut Draws, step: u32) -> Result<(), NoMemory>
    ensures { OnOk result (IsWritten (locked_text step) draws.old draws.new
        text.old.items text.new.items) }
{
    let window = draws.below(8);
    let kind = draws.below(5);
    text.extend_from_slice(b"lock ")?;
    write_name(text, b'w', window)?;
    text.push(b'\n')?;
    write_command(text, draws, kind)?;
    text.extend_from_slice(b"unlock\n")?;
    Ok(())
}

#[tactic(auto, unfolding(crate::specs::Made::command_words))]
fn write_command(text: &mut Vec<u8>, draws: &mut Draws, kind: u32) -> Result<(), NoMemory>
    ensures { OnOk result (IsWritten (command_text kind) draws.old draws.new
        text.old.items text.new.items) }
{
    match kind {
        0 => {
            text.extend_from_slice(b"show\n")?;
            Ok(())
        }
        1 => write_move(text, draws),
        2 => write_fill(text, draws),
        3 => {
            text.extend_from_slice(b"activate\n")?;
            Ok(())
        }
        _ => write_high(text, draws),
    }
}

#[tactic(auto, unfolding(crate::specs::Made::command_words))]
fn write_move(text: &mut Vec<u8>, draws: &mut Draws) -> Result<(), NoMemory>
    ensures { OnOk result (IsWritten (command_text 1) draws.old draws.new
        text.old.items text.new.items) }
{
    let across = draws.below(41);
    let down = draws.below(41);
    text.extend_from_slice(b"moveby")?;
    write_distance(text, across)?;
    write_distance(text, down)?;
    text.push(b'\n')?;
    Ok(())
}

#[tactic(auto, unfolding(crate::specs::Made::command_words))]
fn write_fill(text: &mut Vec<u8>, draws: &mut Draws) -> Result<(), NoMemory>
    ensures { OnOk result (IsWritten (command_text 2) draws.old draws.new
        text.old.items text.new.items) }
{
    let left = draws.below(100);
    let top = draws.below(80);
    text.extend_from_slice(b"fill root")?;
    write_number(text, left)?;
    write_number(text, top)?;
    write_number(text, left + 30)?;
    write_number(text, top + 20)?;
    text.extend_from_slice(b" high\n")?;
    Ok(())
}

#[tactic(auto, unfolding(crate::specs::Made::command_words))]
fn write_high(text: &mut Vec<u8>, draws: &mut Draws) -> Result<(), NoMemory>
    ensures { OnOk result (IsWritten (command_text 4) draws.old draws.new
        text.old.items text.new.items) }
{
    let color = draws.below(16_777_216);
    text.extend_from_slice(b"high root ")?;
    write_color(text, color)?;
    text.push(b'\n')?;
    Ok(())
}
