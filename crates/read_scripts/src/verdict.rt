use be_reader::{ScriptFault, read};
use be_script::{limits_make_routable, work};
use std::alloc::Global;

/// Reads the script in each of the rounds, and once more to tell what it costs.
pub fn work_after(alloc: Global, bytes: &[u8], rounds: u32) -> Result<u64, ScriptFault> {
    for _round in 0..rounds {
        let _verdict = read(alloc, bytes);
    }
    let script = read(alloc, bytes)?;
    limits_make_routable(&script);
    work(alloc, &script).map_err(|_| ScriptFault::NoMemory)
}
