//! What a runner notes, as text.
ghost use Rattle.std.specs.Prelude.{◌≡◌, List, IfOk};
ghost use Rattle.be_asking.specs.Wants.{runner_in};
ghost use Rattle.be_machine.specs.Traces.{Trace};
ghost use Rattle.be_script.specs.Script.{declared_by};
ghost use Rattle.be_written.specs.Notings.{Says};
ghost use Rattle.be_written.specs.TraceText.{noted_text};

use be_asking::Runner;
use be_geom::NoMemory;
use be_script::Script;
use be_written::{Note, Page, write_note};
use std::alloc::Global;

/// The lines of what a runner notes.
pub(crate) fn text_of(
    alloc: Global,
    script: &Script,
    runner: Runner,
    note: &Note<'_>,
) -> Result<Vec<u8>, NoMemory>
    ensures { IfOk result (λ text. (traces : List Trace) → Says note.now traces
        → text.items ≡ noted_text (declared_by script.now) (runner_in runner) traces) }
{
    let writer = match runner {
        Runner::App(app) => be_written::Runner::App(app),
        Runner::Looper(window) => be_written::Runner::Looper(window),
    };
    let mut page = Page::new(alloc);
    write_note(&mut page, script, writer, note)?;
    Ok(page.into_bytes())
}
