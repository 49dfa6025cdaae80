ghost use Rattle.std.specs.Prelude.{◌≡◌, IsSome, None};
ghost use Rattle.std.specs.Result.{result_err, result_map_both};
ghost use Rattle.be_lex.specs.Words.{words_of};
ghost use Rattle.be_line.specs.FirstWords.{misplaced, seat_of};
ghost use Rattle.be_said.specs.SeenDeeds.{seen_deed};
ghost use Rattle.be_said.specs.Due.{IsDue};
ghost use Rattle.be_reader.specs.GivenDeeds.{IsDeed, unless_faulty};
ghost use Rattle.be_reader.specs.Kinds.{ended};
ghost use Rattle.be_reader.specs.LineDeeds.{command_said, line_at};
ghost use Rattle.be_reader.specs.Progress.{first_reason};
ghost use Rattle.be_said.specs.SoFar.{known_in, site_of, window_of};

mod declarations;
mod inputs;
mod instructions;

use crate::reading::Reading;
use be_actor::Instruction;
use be_command::{CommandFault, read_command};
use be_lex::Words;
use be_line::Statement;
use be_said::{Deed, LineFault, SoFar};
use std::alloc::Global;

/// What a line says behind its first word, which may stand here.
pub(crate) fn read_deed(
    alloc: Global,
    said: &SoFar,
    statement: Statement,
    words: Words<'_>,
    text: &[u8],
) -> Result<Deed, LineFault>
    requires { misplaced (site_of said.now) (seat_of statement) ≡ None }
    ensures { IsDeed said.now statement (line_at (words_of words.entry) text.now) result }
{
    let line = Reading::behind_first(words, text);
    match statement {
        Statement::Screen => declarations::screen(line),
        Statement::Bitmap => declarations::bitmap(alloc, said, line),
        Statement::Row => declarations::row(alloc, said, line),
        Statement::Window => declarations::window(alloc, said, line),
        Statement::View => declarations::view(alloc, said, line),
        Statement::Handler => declarations::handler(alloc, said, line),
        Statement::Filter => declarations::filter(said, line),
        Statement::On => declarations::body(said, line),
        Statement::Draw => declarations::draw_body(said, line),
        Statement::App => declarations::program(alloc, said, line),
        Statement::Press => inputs::press(said, line),
        Statement::Release => inputs::release(said, line),
        Statement::Point => inputs::point(said, line),
        Statement::Key => inputs::key(line),
        Statement::After => inputs::after(said, line),
        Statement::End => unless_faulty(line, Deed::End),
        Statement::Note => instructions::note(alloc, line),
        Statement::Post => instructions::post(alloc, said, line),
        Statement::Send => instructions::send(alloc, said, line),
        Statement::Reply => instructions::reply(alloc, said, line),
        Statement::Forward => instructions::forward(said, line),
        Statement::Lock => instructions::lock(said, line),
        Statement::Unlock => unless_faulty(line, Deed::Step(Instruction::Unlock)),
        Statement::Flush => unless_faulty(line, Deed::Step(Instruction::Flush)),
        Statement::Sync => unless_faulty(line, Deed::Step(Instruction::Sync)),
        Statement::Command(_) => command(alloc, said, text),
    }
}

/// The deed of a line whose kinds were read, unless a reason holds against the line.
fn unless_faulty(line: Reading<'_>, deed: Deed) -> Result<Deed, LineFault>
    ensures { result_map_both seen_deed (λ fault. fault) result
        ≡ unless_faulty (first_reason line.entry.reason (result_err (ended line.entry.at.words)))
        (seen_deed deed) }
{
    match line.finish() {
        None => Ok(deed),
        Some(reason) => Err(LineFault::Bad(reason)),
    }
}

/// What the line of a command makes, where a window is for it.
fn command(alloc: Global, said: &SoFar, text: &[u8]) -> Result<Deed, LineFault>
    requires { IsSome (window_of said.now.begun) }
    ensures { IsDue (command_said (known_in said.now (window_of said.now.begun)) text.now)
        (result_map_both seen_deed (λ fault. fault) result) }
{
    match read_command(alloc, text, said.names().unwrap()) {
        Ok(command) => Ok(Deed::Step(Instruction::Draw(command))),
        Err(CommandFault::BadCommand { reason, .. }) => Err(LineFault::Bad(reason)),
        Err(CommandFault::NoMemory) => Err(LineFault::NoMemory),
    }
}
