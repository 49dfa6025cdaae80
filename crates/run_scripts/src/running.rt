//! A script's run on one thread.
use crate::shown::write_shown;
use be_geom::NoMemory;
use be_reader::{ScriptFault, read};
use be_serial::run_serial;
use be_world::World;
use be_written::{Page, write_history};
use std::alloc::Global;

/// No script has more work.
const WORK: u64 = 262_144;

/// Why a script wasn't run.
#[derive(Drop)]
pub enum Fault {
    Script(ScriptFault),
    NoMemory,
}

impl From<NoMemory> for Fault {
    fn from(_: NoMemory) -> Fault {
        Fault::NoMemory
    }
}

/// The lines of the history, and of the screen after it.
pub fn history_of(alloc: Global, bytes: &[u8], seed: u32) -> Result<Page, Fault> {
    let script = match read(alloc, bytes) {
        Ok(script) => script,
        Err(fault) => return Err(Fault::Script(fault)),
    };
    let world = World::new(alloc, script)?;
    let parts = world.opening()?;
    let ran = run_serial(alloc, world, parts, WORK, seed)?;
    let mut page = Page::new(alloc);
    write_history(&mut page, ran.rules.script(), ran.history.as_slice())?;
    let size = ran.rules.script().screen;
    write_shown(alloc, &mut page, size, ran.parts.as_slice())?;
    Ok(page)
}
