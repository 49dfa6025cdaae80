ghost use Rattle.std.specs.Prelude.{◌≡◌, None};
ghost use Rattle.be_line.specs.declared.statement.Statement.TheVariants as statement;
ghost use Rattle.be_reader.specs.GivenDeeds.{IsDeed};
ghost use Rattle.be_said.specs.SoFar as sofar;

// The lines of what comes in.

use crate::deeds::unless_faulty;
use crate::reading::Reading;
use be_said::{Deed, LineFault, SoFar};
use be_script::InputLine;

pub(crate) fn press(said: &SoFar, mut line: Reading<'_>) -> Result<Deed, LineFault>
    requires { line.reason ≡ None }
    ensures { IsDeed said.now statement.Press line.entry.at result }
{
    let place = line.place(said);
    unless_faulty(line, Deed::Input(InputLine::Press(place)))
}

pub(crate) fn release(said: &SoFar, mut line: Reading<'_>) -> Result<Deed, LineFault>
    requires { line.reason ≡ None }
    ensures { IsDeed said.now statement.Release line.entry.at result }
{
    let place = line.place(said);
    unless_faulty(line, Deed::Input(InputLine::Release(place)))
}

pub(crate) fn point(said: &SoFar, mut line: Reading<'_>) -> Result<Deed, LineFault>
    requires { line.reason ≡ None }
    ensures { IsDeed said.now statement.Point line.entry.at result }
{
    let place = line.place(said);
    unless_faulty(line, Deed::Input(InputLine::Move(place)))
}

pub(crate) fn key(mut line: Reading<'_>) -> Result<Deed, LineFault>
    requires { line.reason ≡ None }
    ensures { (said : sofar.SoFar) → IsDeed said statement.Key line.entry.at result }
{
    let key = i32::from(line.number(0, 255));
    unless_faulty(line, Deed::Input(InputLine::Key(key)))
}

pub(crate) fn after(said: &SoFar, mut line: Reading<'_>) -> Result<Deed, LineFault>
    requires { line.reason ≡ None }
    ensures { IsDeed said.now statement.After line.entry.at result }
{
    let app = line.app(said);
    unless_faulty(line, Deed::Input(InputLine::After(app)))
}
