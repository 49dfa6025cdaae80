ghost use Rattle.std.specs.Prelude.{◌≡◌, ◌*◌, length, IfOk};
ghost use Rattle.be_summary.specs.Summary.{summary};

use crate::colors::count_colors;
use crate::counts::write_count;
use crate::kinds::count_kinds;
use be_geom::NoMemory;
use be_machine::Entry;
use be_written::Screen;
use std::alloc::Global;

/// The five lines of a run with this history and this screen, `desktop` of whose pixels no window
/// owns.
pub fn summary<S: Screen>(
    alloc: Global,
    history: &[Entry],
    desktop: u64,
    screen: &S,
) -> Result<Vec<u8>, NoMemory>
    requires { let s = screen.now in length (S.cells s) ≡ S.across s * S.down s }
    ensures { IfOk result (λ text.
        text.items ≡ summary history.now desktop (S.cells screen.now)) }
{
    let kinds = count_kinds(history);
    let colors = count_colors(alloc, screen)?;
    let mut text = Vec::new(alloc);
    write_count(&mut text, b"entries", history.len() as u64)?;
    write_count(&mut text, b"execs", kinds.execs)?;
    write_count(&mut text, b"takes", kinds.takes)?;
    write_count(&mut text, b"desktop", desktop)?;
    write_count(&mut text, b"colors", colors)?;
    Ok(text)
}
