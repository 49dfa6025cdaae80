ghost use Rattle.std.specs.Prelude.{◌≡◌, ◌++◌, List, ℕ, OnOk};
ghost use Rattle.be_machine.specs.Activities as activities;
ghost use Rattle.be_machine.specs.declared.Entry.{Entry};
ghost use Rattle.be_script.specs.Script.{declared_by};
ghost use Rattle.be_written.specs.Notings.{AreTold};
ghost use Rattle.be_written.specs.Runners.{AreFew};
ghost use Rattle.be_written.specs.Takings.{runner_of};
ghost use Rattle.be_written.specs.TraceText.{apps_text, loopers_text, traces_text};

use crate::note::write_line;
use crate::page::Page;
use crate::runner::Runner;
use be_geom::NoMemory;
use be_script::Script;

/// What the runners of a script noted, each in lines of text.
pub trait Notes {
    ghost told: { Self → activities.Runner → List ℕ };

    /// The lines of all that the runner noted.
    fn told(&self, runner: Runner) -> &[u8]
        ensures { result.now ≡ told self.now (runner_of runner) };
}

/// Writes what each runner noted: the applications in order, and then the loopers. It takes a time
/// that is linear in the bytes that are written.
pub fn write_traces<N: Notes>(page: &mut Page, script: &Script, notes: &N) -> Result<(), NoMemory>
    requires { AreFew (declared_by script.now) }
    ensures { OnOk result ((h : List Entry)
        → AreTold (declared_by script.now) h (N.told notes.now)
        → page.new ≡ page.old ++ traces_text (declared_by script.now) h) }
{
    page.text(b"traces")?;
    page.end_line()?;
    write_apps(page, script, notes)?;
    write_loopers(page, script, notes)
}

fn write_apps<N: Notes>(page: &mut Page, script: &Script, notes: &N) -> Result<(), NoMemory>
    requires { AreFew (declared_by script.now) }
    ensures { OnOk result ((h : List Entry)
        → AreTold (declared_by script.now) h (N.told notes.now)
        → page.new ≡ page.old ++ apps_text (declared_by script.now) h) }
{
    for (place, app) in script.apps.iter().enumerate() {
        write_line(page, b"app", app.name.as_slice())?;
        page.text(notes.told(Runner::App(place as u16)))?;
    }
    Ok(())
}

fn write_loopers<N: Notes>(page: &mut Page, script: &Script, notes: &N) -> Result<(), NoMemory>
    requires { AreFew (declared_by script.now) }
    ensures { OnOk result ((h : List Entry)
        → AreTold (declared_by script.now) h (N.told notes.now)
        → page.new ≡ page.old ++ loopers_text (declared_by script.now) h) }
{
    for (place, window) in script.windows.iter().enumerate() {
        write_line(page, b"loop", window.name.as_slice())?;
        page.text(notes.told(Runner::Looper(place as u16)))?;
    }
    Ok(())
}
