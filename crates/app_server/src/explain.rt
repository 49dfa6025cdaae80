ghost use Rattle.std.specs.Prelude.{◌≡◌, IfOk, Some, None};
ghost use Rattle.app_server.specs.ExplainText.{pixel_line};
ghost use Rattle.app_server.specs.Headline.{turn, Answers};
ghost use Rattle.app_server.specs.declared.command.CommandWords.TheVariants.{Explain};

use crate::answer::write;
use crate::status::Status;
use crate::told::told_from;
use be_check::{CheckFault, Explained, explain as explain_pixel};
use be_geom::NoMemory;
use be_lex::{write_natural, write_rgb};
use be_outside::{Sink, Source};
use be_world::World;
use std::alloc::Global;

/// Reads a script and a report of it, and writes the colour of a pixel of the screen after the
/// history that the report tells, and the number of the entry that gave it.
pub fn explain<S: Source, K: Sink>(
    alloc: Global,
    x: u16,
    y: u16,
    source: &mut S,
    sink: &mut K,
) -> Status
    ensures { Answers (Explain x y) (turn S.left S.faults source.old source.new)
        (turn K.held K.faults sink.old sink.new) result }
{
    let told = match told_from(alloc, source) {
        Ok(told) => told,
        Err(status) => return status,
    };
    let Ok(world) = World::new(alloc, told.script) else {
        return Status::NoMemory;
    };
    let found = match explain_pixel(&world, told.history.as_slice(), x, y) {
        Ok(found) => found,
        Err(CheckFault::Illegal(entry)) => return Status::Illegal { entry },
        Err(CheckFault::NoMemory) => return Status::NoMemory,
    };
    match text(alloc, x, y, found) {
        Ok(text) => write(text.as_slice(), sink),
        Err(NoMemory) => Status::NoMemory,
    }
}

fn text(alloc: Global, x: u16, y: u16, found: Option<Explained>) -> Result<Vec<u8>, NoMemory>
    ensures { IfOk result (λ text. text.items ≡ pixel_line x y found) }
{
    match found {
        Some(found) => found_text(alloc, x, y, found),
        None => off_text(alloc, x, y),
    }
}

fn found_text(alloc: Global, x: u16, y: u16, found: Explained) -> Result<Vec<u8>, NoMemory>
    ensures { IfOk result (λ text. text.items ≡ pixel_line x y (Some found)) }
{
    let mut text = Vec::new(alloc);
    write_natural(&mut text, u64::from(x))?;
    text.push(b' ')?;
    write_natural(&mut text, u64::from(y))?;
    text.push(b' ')?;
    write_rgb(&mut text, found.rgb)?;
    text.push(b' ')?;
    write_natural(&mut text, found.entry)?;
    text.push(b'\n')?;
    Ok(text)
}

fn off_text(alloc: Global, x: u16, y: u16) -> Result<Vec<u8>, NoMemory>
    ensures { IfOk result (λ text. text.items ≡ pixel_line x y None) }
{
    let mut text = Vec::new(alloc);
    write_natural(&mut text, u64::from(x))?;
    text.push(b' ')?;
    write_natural(&mut text, u64::from(y))?;
    text.extend_from_slice(b" off\n")?;
    Ok(text)
}
