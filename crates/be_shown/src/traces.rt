ghost use Rattle.std.specs.Prelude.{◌≡◌, IfOk};
ghost use Rattle.be_machine.specs.Activities as activities;
ghost use Rattle.be_parts.specs.Parts.{notes_of};
ghost use Rattle.be_script.specs.Script.{declared_by};
ghost use Rattle.be_shown.specs.Traces.{noted_in, told_there};

use be_geom::NoMemory;
use be_parts::Part;
use be_script::Script;
use be_written::{Notes, Runner};
use std::alloc::Global;
use std::marker::Model;

/// The traces of a run, told from its parts: what each runner noted is in the part that keeps its
/// entries. It is put together once.
#[derive(Drop)]
pub struct Traces {
    apps: usize,
    // By place.
    texts: Vec<Vec<u8>>,
}

impl Model for Traces {
    ghost use Rattle.std.specs.Prelude.{◌<◌, ◌^◌, map};
    ghost use Rattle.be_shown.specs.Traces.{ToldTraces};

    ghost Value = { ToldTraces };

    ghost view = { λ t. record { apps = t.apps; notes = map (λ text. text.items) t.texts.items } };

    ghost invariant = { λ t. t.apps < 2 ^ 63 };
}

impl Traces {
    /// Those of a run of this script that has come to these parts. It copies their bytes.
    pub fn new(alloc: Global, script: &Script, parts: &[Part]) -> Result<Traces, NoMemory>
        ensures { IfOk result (λ it. (who : activities.Runner)
            → told_there it who ≡ noted_in (declared_by script.now) parts.now who) }
    {
        let mut texts = Vec::new(alloc);
        for part in parts {
            texts.push(text_of(alloc, part)?)?;
        }
        Ok(Traces {
            apps: script.apps.len(),
            texts,
        })
    }
}

impl Notes for Traces {
    ghost told = { λ it who. told_there it who };

    fn told(&self, runner: Runner) -> &[u8] {
        let place = match runner {
            Runner::App(app) => 2 + usize::from(app),
            Runner::Looper(window) => 2 + self.apps + usize::from(window),
        };
        match self.texts.get(place) {
            Some(text) => text.as_slice(),
            None => &[],
        }
    }
}

/// What was noted in a part.
fn text_of(alloc: Global, part: &Part) -> Result<Vec<u8>, NoMemory>
    ensures { IfOk result (λ text. text.items ≡ notes_of part.now) }
{
    let mut whole = Vec::new(alloc);
    for text in part.notes() {
        whole.extend_from_slice(text.as_slice())?;
    }
    Ok(whole)
}
