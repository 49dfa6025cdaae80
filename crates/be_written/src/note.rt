ghost use Rattle.std.specs.Prelude.{◌≡◌, List, [], ◌∷◌, ◌++◌, map, OnOk};
ghost use Rattle.std.specs.Fmt.{signed_decimal};
ghost use Rattle.be_machine.specs.Traces.{Trace, listed};
ghost use Rattle.be_message.specs.Messages as messages;
ghost use Rattle.be_script.specs.Script.{declared_by};
ghost use Rattle.be_written.specs.Lines.{line_of};
ghost use Rattle.be_written.specs.MessageText.{message_text};
ghost use Rattle.be_written.specs.Notings.{Says};
ghost use Rattle.be_written.specs.Spelt.{IsSaid};
ghost use Rattle.be_written.specs.Takings.{runner_of};
ghost use Rattle.be_written.specs.TraceText.{listed_name, noted_text, trace_words};

use crate::page::Page;
use crate::runner::Runner;
use crate::said::{Said, write_said};
use crate::taken::{Taken, view_name, write_taken};
use be_geom::{NoMemory, Rect};
use be_script::Script;

/// What a runner notes of an entry that it makes.
#[derive(Drop)]
pub enum Note<'a> {
    Nothing,
    Word(&'a [u8]),
    /// The reply for which an application waited.
    Got(Said<'a>),
    /// The letter of this number.
    Took(u64, Taken<'a>),
    /// The views that an update lists, each with the smallest rectangle of its pixels, in the
    /// window's coordinates.
    Listed(&'a [(u16, Rect)]),
    /// A reply that reached an application.
    Replied(Said<'a>),
}

/// Writes the lines of what a runner noted. To find a handler's or a view's name takes a look at
/// each view or each plain handler of the script.
pub fn write_note(
    page: &mut Page,
    script: &Script,
    runner: Runner,
    note: &Note<'_>,
) -> Result<(), NoMemory>
    ensures { OnOk result ((traces : List Trace) → Says note.now traces → page.new
        ≡ page.old ++ noted_text (declared_by script.now) (runner_of runner) traces) }
{
    match note {
        Note::Nothing => Ok(()),
        Note::Word(word) => write_line(page, b"note", word),
        Note::Got(said) => write_told(page, b"got", *said),
        Note::Took(number, taken) => write_taken(page, script, runner, *number, taken),
        Note::Listed(views) => write_listing(page, script, runner, views),
        Note::Replied(said) => write_told(page, b"reply", *said),
    }
}

/// A line of two words.
pub(crate) fn write_line(page: &mut Page, kind: &[u8], word: &[u8]) -> Result<(), NoMemory>
    ensures { OnOk result (page.new ≡ page.old ++ line_of (kind.now ∷ word.now ∷ [])) }
{
    page.text(kind)?;
    page.word(word)?;
    page.end_line()
}

/// A message behind what became of it.
fn write_told(page: &mut Page, kind: &[u8], said: Said<'_>) -> Result<(), NoMemory>
    ensures { OnOk result ((m : messages.Message) → IsSaid said.entry m
        → page.new ≡ page.old ++ line_of (kind.now ∷ message_text m ∷ [])) }
{
    page.text(kind)?;
    page.text(b" ")?;
    write_said(page, said)?;
    page.end_line()
}

/// A line for each view that an update lists.
fn write_listing(
    page: &mut Page,
    script: &Script,
    runner: Runner,
    views: &[(u16, Rect)],
) -> Result<(), NoMemory>
    ensures { OnOk result (page.new ≡ page.old
        ++ noted_text (declared_by script.now) (runner_of runner)
        (map (λ p. listed p.0 p.1) views.now)) }
{
    for (view, rect) in views {
        write_listed(page, script, runner, *view, *rect)?;
    }
    Ok(())
}

fn write_listed(
    page: &mut Page,
    script: &Script,
    runner: Runner,
    view: u16,
    rect: Rect,
) -> Result<(), NoMemory>
    ensures { OnOk result (page.new ≡ page.old
        ++ line_of (trace_words (declared_by script.now) (runner_of runner) (listed view rect))) }
{
    page.text(b"update")?;
    page.word(listed_name(script, runner, view))?;
    write_edge(page, rect.left)?;
    write_edge(page, rect.top)?;
    write_edge(page, rect.right)?;
    write_edge(page, rect.bottom)?;
    page.end_line()
}

/// An edge behind other words.
fn write_edge(page: &mut Page, edge: i16) -> Result<(), NoMemory>
    ensures { OnOk result (page.new ≡ page.old ++ 32 ∷ signed_decimal edge) }
{
    page.text(b" ")?;
    page.signed(i64::from(edge))
}

/// The name of a view of a looper's window; an application has no views.
fn listed_name(script: &Script, runner: Runner, view: u16) -> &[u8]
    ensures { result.now ≡ listed_name (declared_by script.now) (runner_of runner) view }
{
    match runner {
        Runner::App(_) => b"",
        Runner::Looper(window) => view_name(script, window, view),
    }
}
