ghost use Rattle.std.specs.Prelude.{◌≡◌, ◌-◌, ◌^◌, min, codes};
ghost use Rattle.std.specs.Option.{option_map};
ghost use Rattle.std.specs.Str.{bytes_eq};
ghost use Rattle.be_report.specs.Entries.{entry_of};
ghost use Rattle.be_report.specs.Lines.{words_between};
ghost use Rattle.be_report.specs.Outcomes.{IsSaid};
ghost use Rattle.be_written.specs.Runners.{AreFew};
ghost use Rattle.be_report.specs.Told.{count_in};
ghost use Rattle.be_script.specs.Script.{declared_by};

// What a line says, without the line feed that ends it.

use crate::reading::numbered;
use crate::spaced::Spaced;
use crate::word::natural_of;
use be_command::Reason;
use be_machine::Entry;
use be_said::LineFault;
use be_script::Script;
use std::alloc::Global;

const LINE_BYTES: usize = 2_048;

/// How many entries a history's first line promises. A number that is too great for 64 bits counts
/// as the greatest of those.
#[tactic(auto, unfolding(crate::specs::Told::count_in))]
pub(crate) fn count_in(line: &[u8]) -> Option<u64>
    ensures { result ≡ option_map (λ n. min n (2 ^ 64 - 1)) (count_in line.now) }
{
    if line.len() > LINE_BYTES {
        return None;
    }
    let mut words = Spaced::of(line);
    let first = words.next()?;
    if first != b"history".as_slice() {
        return None;
    }
    let second = words.next()?;
    let number = natural_of(second)?;
    if words.is_empty() { Some(number) } else { None }
}

/// The entry of this number.
#[tactic(auto, unfolding(crate::specs::Entries::entry_of))]
pub(crate) fn entry_in(
    alloc: Global,
    script: &Script,
    number: u64,
    line: &[u8],
) -> Result<Entry, LineFault>
    requires { AreFew (declared_by script.now) }
    ensures { IsSaid (entry_of (declared_by script.now) number (words_between line.now)) result }
{
    let mut words = Spaced::of(line);
    let entry = numbered(alloc, script, number, &mut words)?;
    if words.is_empty() {
        Ok(entry)
    } else {
        Err(LineFault::Bad(Reason::BadEntry))
    }
}

/// Whether the line stands behind a history.
pub(crate) fn begins_traces(line: &[u8]) -> bool
    ensures { result ≡ bytes_eq line.now (codes "traces") }
{
    line == b"traces".as_slice()
}
