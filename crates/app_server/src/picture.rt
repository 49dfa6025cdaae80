//! A picture, drawn.
ghost use Rattle.std.specs.Prelude.{IfErr, IfOk, All};
ghost use Rattle.app_server.specs.Commands.{IsSide};
ghost use Rattle.app_server.specs.Headline.{turn, Answers};
ghost use Rattle.app_server.specs.Inputs.{picture_in};
ghost use Rattle.app_server.specs.Scripts.{Reads, Refuses};
ghost use Rattle.app_server.specs.declared.command.CommandWords.TheVariants as command;
ghost use Rattle.be_command.specs.Effects.{effect_of};
ghost use Rattle.be_twin.specs.Judged.{HasPen};

use crate::answer::write;
use crate::input::{InputFault, read_all};
use crate::status::Status;
use be_command::Names;
use be_geom::NoMemory;
use be_outside::{Sink, Source};
use be_picture::{Picture, PictureFault, read_picture};
use be_sheet::draw;
use std::alloc::Global;

/// How many bytes a picture may have.
const MOST: usize = 1_048_576;

/// Reads a picture, and writes what it draws on white pixels, so many across and down.
pub fn picture<S: Source, K: Sink>(
    alloc: Global,
    width: u16,
    height: u16,
    source: &mut S,
    sink: &mut K,
) -> Status
    requires width { IsSide width }
    requires height { IsSide height }
    ensures { Answers (command.Picture width height) (turn S.left S.faults source.old source.new)
        (turn K.held K.faults sink.old sink.new) result }
{
    let picture = match picture_from(alloc, source) {
        Ok(picture) => picture,
        Err(status) => return status,
    };
    match draw(alloc, picture, width, height) {
        Ok(page) => write(page.as_slice(), sink),
        Err(NoMemory) => Status::NoMemory,
    }
}

/// Reads a source as a picture without bitmaps, or tells the status that says why there is none.
fn picture_from<S: Source>(alloc: Global, source: &mut S) -> Result<Picture, Status>
    ensures picture { IfOk result (Reads 1048576 picture_in
        (turn S.left S.faults source.old source.new)) }
    ensures pens { IfOk result (All (λ c. HasPen (effect_of c))) }
    ensures refused { IfErr result (Refuses 1048576 picture_in
        (turn S.left S.faults source.old source.new)) }
{
    let bytes = match read_all(alloc, MOST, source) {
        Ok(bytes) => bytes,
        Err(InputFault::ReadFault) => return Err(Status::ReadFault),
        Err(InputFault::NoMemory) => return Err(Status::NoMemory),
    };
    match read_picture(alloc, bytes.as_slice(), &Names::new(alloc)) {
        Ok(picture) => Ok(picture),
        Err(PictureFault::At { line, reason }) => Err(Status::BadScript { line, reason }),
        Err(PictureFault::NoMemory) => Err(Status::NoMemory),
    }
}
