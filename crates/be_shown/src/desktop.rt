ghost use Rattle.std.specs.Prelude.{◌≡◌, ◌<◌, ◌≤◌, ◌*◌, List, count_by, map};
ghost use Rattle.std.specs.List.{range_with_len};
ghost use Rattle.be_machine.specs.History.{IsLegalHistory, state_after};
ghost use Rattle.be_machine.specs.declared.Entry.{Entry};
ghost use Rattle.be_parts.specs.Parts.{meaning_of};
ghost use Rattle.be_rules.specs.Rules.{IsSound};
ghost use Rattle.be_rules.specs.Slices.{slices, state_of};
ghost use Rattle.be_script.specs.Script.{declared_by};
ghost use Rattle.be_shown.specs.Desktop.{desktop_count, is_desktop};

use crate::looks::cells_from;
use crate::stretch::{Stretch, stretch_from};
use be_parts::Part;
use be_script::Script;

/// How many pixels of the screen no window owns. Each run of pixels in a row is looked at once, and
/// no memory is taken.
pub fn desktop_pixels(script: &Script, parts: &[Part]) -> u64
    requires { IsSound (declared_by script.now) (map meaning_of parts.now) }
    ensures now { let d = declared_by script.now in
        result ≡ desktop_count d (state_of d (map meaning_of parts.now)) }
    ensures after { (history : List Entry) → IsLegalHistory (declared_by script.now) history
        → map meaning_of parts.now
        ≡ slices (declared_by script.now) (state_after (declared_by script.now) history)
        → result ≡ desktop_count (declared_by script.now)
        (state_after (declared_by script.now) history) }
{
    let mut count = 0;
    for row in 0..script.screen.1 {
        count += u64::from(desktop_in_row(script, parts, row));
    }
    count
}

fn desktop_in_row(script: &Script, parts: &[Part], row: u16) -> u32
    requires sound { IsSound (declared_by script.now) (map meaning_of parts.now) }
    requires row { row < (declared_by script.now).height }
    ensures now { let d = declared_by script.now in
        let s = state_of d (map meaning_of parts.now) in
        result ≡ count_by (is_desktop d.width s) (range_with_len (row * d.width) d.width) }
    ensures few { result ≤ (declared_by script.now).width }
{
    let width = script.screen.0;
    let mut count = 0;
    let mut column = 0;
    while column < width {
        match stretch_from(parts, width, column, row) {
            Stretch::Owned(part) => column += cells_from(part, column, row).len() as u16,
            Stretch::Desktop(free) => {
                count += free;
                column += free as u16;
            }
        }
    }
    count
}
