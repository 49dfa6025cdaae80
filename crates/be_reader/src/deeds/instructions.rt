ghost use Rattle.std.specs.Prelude.{◌≡◌, None};
ghost use Rattle.be_line.specs.declared.statement.Statement.TheVariants as statement;
ghost use Rattle.be_reader.specs.GivenDeeds.{IsDeed};
ghost use Rattle.be_said.specs.SoFar as sofar;

// The lines of bodies and programs, beside commands.

use crate::deeds::unless_faulty;
use crate::reading::Reading;
use be_actor::{Draft, Instruction};
use be_message::Text;
use be_said::{Deed, LineFault, SoFar};
use std::alloc::Global;

pub(crate) fn note(alloc: Global, mut line: Reading<'_>) -> Result<Deed, LineFault>
    requires { line.reason ≡ None }
    ensures { (said : sofar.SoFar) → IsDeed said statement.Note line.entry.at result }
{
    let text = Text::new(alloc, line.note())?;
    unless_faulty(line, Deed::Step(Instruction::Note(text)))
}

pub(crate) fn post(alloc: Global, said: &SoFar, mut line: Reading<'_>) -> Result<Deed, LineFault>
    requires { line.reason ≡ None }
    ensures { IsDeed said.now statement.Post line.entry.at result }
{
    let window = line.window(said);
    let handler = line.handler(said);
    let what = line.what();
    let words = line.fields(alloc, said)?;
    let draft = Draft { what, words };
    unless_faulty(line, Deed::Step(Instruction::Post(window, handler, draft)))
}

pub(crate) fn send(alloc: Global, said: &SoFar, mut line: Reading<'_>) -> Result<Deed, LineFault>
    requires { line.reason ≡ None }
    ensures { IsDeed said.now statement.Send line.entry.at result }
{
    let window = line.window(said);
    let handler = line.handler(said);
    let what = line.what();
    let words = line.fields(alloc, said)?;
    let draft = Draft { what, words };
    unless_faulty(line, Deed::Step(Instruction::Send(window, handler, draft)))
}

pub(crate) fn reply(alloc: Global, said: &SoFar, mut line: Reading<'_>) -> Result<Deed, LineFault>
    requires { line.reason ≡ None }
    ensures { IsDeed said.now statement.Reply line.entry.at result }
{
    let what = line.what();
    let words = line.fields(alloc, said)?;
    unless_faulty(line, Deed::Step(Instruction::Reply(Draft { what, words })))
}

pub(crate) fn forward(said: &SoFar, mut line: Reading<'_>) -> Result<Deed, LineFault>
    requires { line.reason ≡ None }
    ensures { IsDeed said.now statement.Forward line.entry.at result }
{
    let window = line.window(said);
    let handler = line.handler(said);
    unless_faulty(line, Deed::Step(Instruction::Forward(window, handler)))
}

pub(crate) fn lock(said: &SoFar, mut line: Reading<'_>) -> Result<Deed, LineFault>
    requires { line.reason ≡ None }
    ensures { IsDeed said.now statement.Lock line.entry.at result }
{
    let window = line.window(said);
    unless_faulty(line, Deed::Step(Instruction::Lock(window)))
}
