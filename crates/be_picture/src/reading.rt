ghost use Rattle.std.specs.Prelude.{◌≡◌, ◌≤◌, All, IfOk, [], length};
ghost use Rattle.be_command.specs.Effects.{effect_of};
ghost use Rattle.be_command.specs.Reading.{command_or_reason};
ghost use Rattle.be_lex.specs.Lines.{lines_of};
ghost use Rattle.be_line.specs.FirstWords.{is_of_drawing};
ghost use Rattle.be_twin.specs.Judged.{HasPen};
ghost use Rattle.be_picture.specs.Faults.{IsRead, IsTaken};
ghost use Rattle.be_picture.specs.Recording.{open_pushes, refusal};
ghost use Rattle.be_picture.specs.Text.{is_drawing_word, picture_of, read_line, read_lines};
ghost use Rattle.be_picture.specs.Text.{unless_misplaced, unless_refused, with_command, word_fault};

use crate::fault::{LineFault, PictureFault, RecordFault};
use crate::picture::Picture;
use crate::recorder::Recorder;
use be_command::{Command, CommandFault, FirstWord, Names, Reason, read_command};
use be_lex::{Line, Lines, Words, is_passed_over, is_printable};
use be_line::{Seat, Statement};
use std::alloc::Global;

const PICTURE_BYTES: usize = 1_048_576;

const LINE_BYTES: usize = 2_048;

/// Reads a picture, a command a line. It costs a few steps for each byte, and memory for the
/// commands.
#[tactic(auto, unfolding(crate::specs::Text::picture_of))]
pub fn read_picture(alloc: Global, bytes: &[u8], names: &Names) -> Result<Picture, PictureFault>
    ensures said { IsRead (picture_of names.now bytes.now) result }
    ensures pens { IfOk result (All (λ c. HasPen (effect_of c))) }
{
    if bytes.len() > PICTURE_BYTES {
        return Err(PictureFault::At {
            line: 0,
            reason: Reason::TooLong,
        });
    }
    let picture = read_lines(alloc, bytes, names)?;
    Ok(picture)
}

/// Reads the lines of a picture, one behind the other.
#[tactic(auto, unfolding(crate::specs::Text::read_lines))]
fn read_lines(alloc: Global, bytes: &[u8], names: &Names) -> Result<Picture, PictureFault>
    requires { length bytes.now ≤ 1048576 }
    ensures { IsRead (read_lines names.now 1 [] (lines_of bytes.now)) result }
{
    let mut recorder = Recorder::new(alloc);
    let mut lines = Lines::of(bytes);
    let mut number = 1;
    while let Some(line) = lines.next() {
        if let Err(fault) = read_line(alloc, &mut recorder, &line, names) {
            return Err(fault.at(number));
        }
        number += 1;
    }
    Ok(recorder.finish())
}

/// Reads a line, and records what it says.
#[tactic(auto, unfolding(crate::specs::Text::read_line))]
fn read_line(
    alloc: Global,
    recorder: &mut Recorder,
    line: &Line<'_>,
    names: &Names,
) -> Result<(), LineFault>
    ensures { IsTaken (read_line names.now recorder.old line.now) recorder.new result }
{
    if line.len() > LINE_BYTES {
        return Err(LineFault::Bad(Reason::LongLine));
    }
    let text = line.text();
    if !is_printable(text) {
        return Err(LineFault::Bad(Reason::BadByte));
    }
    if is_passed_over(text) {
        return Ok(());
    }
    match Words::of(text).next() {
        Some(first) => read_words(alloc, recorder, first, text, names),
        None => Ok(()),
    }
}

/// The same of a line with this first word.
fn read_words(
    alloc: Global,
    recorder: &mut Recorder,
    first: &[u8],
    text: &[u8],
    names: &Names,
) -> Result<(), LineFault>
    ensures { IsTaken (unless_misplaced names.now recorder.old text.now
        (word_fault (open_pushes recorder.old) first.now)) recorder.new result }
{
    match word_fault(recorder, first) {
        Some(reason) => Err(LineFault::Bad(reason)),
        None => read_known(alloc, recorder, text, names),
    }
}

/// What is wrong with a line by its first word, where something is.
fn word_fault(recorder: &Recorder, word: &[u8]) -> Option<Reason>
    ensures { result ≡ word_fault (open_pushes recorder.now) word.now }
{
    if Statement::of(word).is_none() {
        Some(Reason::UnknownWord)
    } else if !is_drawing_word(word) || recorder.is_unbalanced(word) {
        Some(Reason::NotHere)
    } else {
        None
    }
}

fn is_drawing_word(word: &[u8]) -> bool
    ensures { result ≡ is_drawing_word word.now }
{
    match FirstWord::of(word) {
        Some(word) => is_of_drawing(word),
        None => false,
    }
}

/// Whether a Draw body may have the command too.
fn is_of_drawing(word: FirstWord) -> bool
    ensures { result ≡ is_of_drawing word }
{
    match Statement::Command(word).seat() {
        Seat::Inside(allowed) => allowed.in_draw,
        Seat::FirstLine | Seat::Apart | Seat::ARow => false,
    }
}

/// Records the command that a line is.
fn read_known(
    alloc: Global,
    recorder: &mut Recorder,
    text: &[u8],
    names: &Names,
) -> Result<(), LineFault>
    ensures { IsTaken (with_command recorder.old (command_or_reason names.now text.now))
        recorder.new result }
{
    match read_command(alloc, text, names) {
        Ok(command) => record(recorder, command),
        Err(CommandFault::BadCommand { reason, .. }) => Err(LineFault::Bad(reason)),
        Err(CommandFault::NoMemory) => Err(LineFault::NoMemory),
    }
}

/// Records a command, or tells why its line isn't taken.
fn record(recorder: &mut Recorder, command: Command) -> Result<(), LineFault>
    ensures { IsTaken (unless_refused recorder.old command (refusal recorder.old command))
        recorder.new result }
{
    match recorder.record(command) {
        Ok(()) => Ok(()),
        Err(RecordFault::NotDrawing(_)) => Err(LineFault::Bad(Reason::UnknownName)),
        Err(RecordFault::Unbalanced(_) | RecordFault::TooDeep(_)) => {
            Err(LineFault::Bad(Reason::NotHere))
        }
        Err(RecordFault::TooMany(_)) => Err(LineFault::Bad(Reason::TooMany)),
        Err(RecordFault::NoMemory(_)) => Err(LineFault::NoMemory),
    }
}
