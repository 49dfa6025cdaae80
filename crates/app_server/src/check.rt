ghost use Rattle.std.specs.Prelude.{◌≡◌, IfOk};
ghost use Rattle.app_server.specs.CheckText.{check_text};
ghost use Rattle.app_server.specs.Headline.{turn, Answers};
ghost use Rattle.app_server.specs.declared.command.CommandWords.TheVariants.{Check};
ghost use Rattle.be_machine.specs.Activities.{activities};
ghost use Rattle.be_script.specs.Limits.{IsWithinLimits};
ghost use Rattle.be_script.specs.Script.{declared_by};

use crate::answer::write;
use crate::script::script_from;
use crate::status::Status;
use be_geom::NoMemory;
use be_outside::{Sink, Source};
use be_script::{Script, limits_make_routable, work};
use be_summary::write_count;
use std::alloc::Global;

/// Judges a script, and writes how much work it is at most, and how many activities run it.
pub fn check<S: Source, K: Sink>(alloc: Global, source: &mut S, sink: &mut K) -> Status
    ensures { Answers Check (turn S.left S.faults source.old source.new)
        (turn K.held K.faults sink.old sink.new) result }
{
    let script = match script_from(alloc, source) {
        Ok(script) => script,
        Err(status) => return status,
    };
    match text(alloc, &script) {
        Ok(text) => write(text.as_slice(), sink),
        Err(NoMemory) => Status::NoMemory,
    }
}

fn text(alloc: Global, script: &Script) -> Result<Vec<u8>, NoMemory>
    requires { IsWithinLimits (declared_by script.now) }
    ensures { IfOk result (λ text. text.items ≡ check_text (declared_by script.now)) }
{
    limits_make_routable(script);
    let mut text = Vec::new(alloc);
    write_count(&mut text, b"work", work(alloc, script)?)?;
    write_count(&mut text, b"activities", activities(script))?;
    Ok(text)
}

/// One for each application, two for each window, one for input, and one that closes the run.
fn activities(script: &Script) -> u64
    requires { IsWithinLimits (declared_by script.now) }
    ensures { result ≡ activities (declared_by script.now) }
{
    script.apps.len() as u64 + 2 * script.windows.len() as u64 + 2
}
