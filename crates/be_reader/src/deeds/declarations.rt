ghost use Rattle.std.specs.Prelude.{◌≡◌, None};
ghost use Rattle.be_line.specs.declared.statement.Statement.TheVariants as statement;
ghost use Rattle.be_reader.specs.GivenDeeds.{IsDeed};
ghost use Rattle.be_said.specs.SoFar as sofar;

// The lines that declare something, and those that begin it.

use crate::deeds::unless_faulty;
use crate::reading::Reading;
use be_follow::Follow;
use be_message::Text;
use be_said::{Deed, LineFault, SoFar};
use be_script::{FilterLine, HandlerLine, ViewLine, WindowLine};
use std::alloc::Global;

pub(crate) fn screen(mut line: Reading<'_>) -> Result<Deed, LineFault>
    requires { line.reason ≡ None }
    ensures { (said : sofar.SoFar) → IsDeed said statement.Screen line.entry.at result }
{
    let width = line.number(1, 1024);
    let height = line.number(1, 768);
    unless_faulty(line, Deed::Screen(width, height))
}

pub(crate) fn bitmap(alloc: Global, said: &SoFar, mut line: Reading<'_>) -> Result<Deed, LineFault>
    requires { line.reason ≡ None }
    ensures { IsDeed said.now statement.Bitmap line.entry.at result }
{
    let name = Text::new(alloc, line.new_bitmap(said))?;
    let width = line.number(1, 256);
    let height = line.number(1, 256);
    unless_faulty(
        line,
        Deed::Bitmap {
            name,
            width,
            height,
        },
    )
}

pub(crate) fn row(alloc: Global, said: &SoFar, mut line: Reading<'_>) -> Result<Deed, LineFault>
    requires { line.reason ≡ None }
    ensures { IsDeed said.now statement.Row line.entry.at result }
{
    let colors = line.pixels(alloc, said)?;
    unless_faulty(line, Deed::Row(colors))
}

pub(crate) fn window(alloc: Global, said: &SoFar, mut line: Reading<'_>) -> Result<Deed, LineFault>
    requires { line.reason ≡ None }
    ensures { IsDeed said.now statement.Window line.entry.at result }
{
    let name = Text::new(alloc, line.new_window(said))?;
    let frame = line.window_frame();
    let options = line.options();
    let window = WindowLine {
        name,
        frame,
        first_click: options.first_click,
        avoid_focus: options.avoid_focus,
        port: options.port,
        color: options.color,
    };
    unless_faulty(line, Deed::Window(window))
}

pub(crate) fn view(alloc: Global, said: &SoFar, mut line: Reading<'_>) -> Result<Deed, LineFault>
    requires { line.reason ≡ None }
    ensures { IsDeed said.now statement.View line.entry.at result }
{
    let window = line.window(said);
    let name = Text::new(alloc, line.new_handler(said))?;
    let parent = line.view(said);
    let frame = line.frame();
    let across = line.across();
    let down = line.down();
    let view = ViewLine {
        window,
        name,
        parent,
        frame,
        mode: Follow { across, down },
        color: line.last_color(),
    };
    unless_faulty(line, Deed::View(view))
}

pub(crate) fn handler(alloc: Global, said: &SoFar, mut line: Reading<'_>) -> Result<Deed, LineFault>
    requires { line.reason ≡ None }
    ensures { IsDeed said.now statement.Handler line.entry.at result }
{
    let window = line.window(said);
    let name = Text::new(alloc, line.new_handler(said))?;
    let next = line.handler(said);
    unless_faulty(line, Deed::Handler(HandlerLine { window, name, next }))
}

pub(crate) fn filter(said: &SoFar, mut line: Reading<'_>) -> Result<Deed, LineFault>
    requires { line.reason ≡ None }
    ensures { IsDeed said.now statement.Filter line.entry.at result }
{
    let window = line.window(said);
    let list = line.list(said);
    let what = line.filter_what();
    let rule = line.rule(said);
    let filter = FilterLine {
        window,
        list,
        what,
        rule,
    };
    unless_faulty(line, Deed::Filter(filter))
}

/// The body of a handler.
pub(crate) fn body(said: &SoFar, mut line: Reading<'_>) -> Result<Deed, LineFault>
    requires { line.reason ≡ None }
    ensures { IsDeed said.now statement.On line.entry.at result }
{
    let window = line.window(said);
    let handler = line.handler(said);
    let what = line.what();
    unless_faulty(line, Deed::Body(window, handler, what))
}

pub(crate) fn draw_body(said: &SoFar, mut line: Reading<'_>) -> Result<Deed, LineFault>
    requires { line.reason ≡ None }
    ensures { IsDeed said.now statement.Draw line.entry.at result }
{
    let window = line.window(said);
    let view = line.view(said);
    unless_faulty(line, Deed::Draw(window, view))
}

pub(crate) fn program(alloc: Global, said: &SoFar, mut line: Reading<'_>) -> Result<Deed, LineFault>
    requires { line.reason ≡ None }
    ensures { IsDeed said.now statement.App line.entry.at result }
{
    let name = Text::new(alloc, line.new_app(said))?;
    unless_faulty(line, Deed::Program(name))
}
