ghost use Rattle.std.specs.Prelude.{◌≡◌, ◌∷◌, [], ◌++◌, map, filter, ◌==◌, slice_index_or, OnOk};
ghost use Rattle.be_looper.specs.Duties.{Hand};
ghost use Rattle.be_message.specs.Messages as messages;
ghost use Rattle.be_written.specs.Lines.{line_of};
ghost use Rattle.be_written.specs.Names.{view_name, target_name};
ghost use Rattle.be_written.specs.Takings.{runner_of, Tells};
ghost use Rattle.be_written.specs.TraceText.{sender_name, handler_name, route_name, taken_words};
ghost use Rattle.be_script.specs.Script.{declared_by};

use crate::page::Page;
use crate::runner::Runner;
use crate::said::{Said, said_word, write_said_fields};
use crate::writing::{app_name, window_name, write_named};
use be_geom::NoMemory;
use be_handler::Route;
use be_message::Target;
use be_port::Sender;
use be_script::{HandlerLine, Script, ViewLine};

/// A letter that was taken, and where it went.
#[derive(Drop)]
pub struct Taken<'a> {
    pub sender: Sender,
    /// How many messages were handled on the way to it.
    pub hop: u8,
    pub target: Target,
    pub route: Route,
    pub message: Said<'a>,
}

/// Writes the line of a letter that was taken as this number. To find a handler's name takes a look
/// at each view or each plain handler of the script.
pub(crate) fn write_taken(
    page: &mut Page,
    script: &Script,
    runner: Runner,
    number: u64,
    taken: &Taken<'_>,
) -> Result<(), NoMemory>
    ensures { OnOk result ((hand : Hand messages.Message) → Tells taken.now hand
        → page.new ≡ page.old
        ++ line_of (taken_words (declared_by script.now) (runner_of runner) number hand)) }
{
    page.text(b"take")?;
    page.number_word(number)?;
    write_sender(page, script, taken.sender)?;
    page.number_word(u64::from(taken.hop))?;
    page.text(b" ")?;
    page.code(said_word(taken.message))?;
    page.word(handler_name(script, runner, taken.target))?;
    page.word(route_name(script, runner, taken.route))?;
    write_said_fields(page, taken.message)?;
    page.end_line()
}

fn write_sender(page: &mut Page, script: &Script, sender: Sender) -> Result<(), NoMemory>
    ensures { OnOk result
        (page.new ≡ page.old ++ 32 ∷ sender_name (declared_by script.now) sender) }
{
    match sender {
        Sender::Input => page.word(b"input"),
        Sender::App(app) => write_named(page, b"app:", app_name(script, usize::from(app))),
        Sender::Looper(window) => {
            write_named(page, b"loop:", window_name(script, usize::from(window)))
        }
        Sender::Twin(window) => {
            write_named(page, b"twin:", window_name(script, usize::from(window)))
        }
    }
}

// ---- names

/// Who handles a letter: `/` where a filter skipped it, `-` where it wasn't understood.
fn route_name(script: &Script, runner: Runner, route: Route) -> &[u8]
    ensures { result.now ≡ route_name (declared_by script.now) (runner_of runner) route }
{
    match route {
        Route::Skipped => b"/",
        Route::Handler(target) => handler_name(script, runner, target),
        Route::Unknown => b"-",
    }
}

/// The name of a handler of a looper's window; an application has no handlers.
fn handler_name(script: &Script, runner: Runner, target: Target) -> &[u8]
    ensures { result.now ≡ handler_name (declared_by script.now) (runner_of runner) target }
{
    match runner {
        Runner::App(_) => b"",
        Runner::Looper(window) => target_name(script, window, target),
    }
}

fn target_name(script: &Script, window: u16, target: Target) -> &[u8]
    ensures { result.now ≡ target_name (declared_by script.now) window target }
{
    match target {
        Target::Window => b"window",
        Target::View(view) => view_name(script, window, view),
        Target::Plain(plain) => plain_name(&script.handlers, window, plain),
    }
}

pub(crate) fn view_name(script: &Script, window: u16, view: u16) -> &[u8]
    ensures { result.now ≡ view_name (declared_by script.now) window view }
{
    if view == 0 {
        b"root"
    } else {
        view_in(&script.views, window, view - 1)
    }
}

/// The name of a view below a window's root, or nothing where there is none.
fn view_in(views: &[ViewLine], window: u16, place: u16) -> &[u8]
    ensures { result.now ≡ slice_index_or
        (map (λ line. line.name) (filter (λ line. line.window == window) views.now)) place [] }
{
    let mut left = place;
    for line in views {
        if line.window == window {
            if left == 0 {
                return line.name.as_slice();
            }
            left -= 1;
        }
    }
    b""
}

/// The name of a plain handler of a window, or nothing where there is none.
fn plain_name(handlers: &[HandlerLine], window: u16, place: u16) -> &[u8]
    ensures { result.now ≡ slice_index_or
        (map (λ line. line.name) (filter (λ line. line.window == window) handlers.now)) place [] }
{
    let mut left = place;
    for line in handlers {
        if line.window == window {
            if left == 0 {
                return line.name.as_slice();
            }
            left -= 1;
        }
    }
    b""
}
