ghost use Rattle.std.specs.Prelude.{◌≡◌, ◌∷◌, [], ◌++◌, List, IfOk, OnOk};
ghost use Rattle.be_pressed.specs.ButtonText.{letter_text, letters_text};
ghost use Rattle.be_pressed.specs.Hearing.{AreWindows};
ghost use Rattle.be_pressed.specs.declared.letter.TakenLetter.{TakenLetter};
ghost use Rattle.be_script.specs.Script.{declared_by};

use crate::hearing::Buttons;
use crate::letter::TakenLetter;
use crate::opening::opened;
use crate::writing::write_invoked;
use be_geom::NoMemory;
use be_message::Target;
use be_script::Script;
use std::alloc::Global;

/// A line for each letter that invokes the view that it is for: the window, the view, and the
/// letter's number. The letters are those of all windows, in the order in which they were taken.
pub fn pressed(alloc: Global, script: &Script, letters: &[TakenLetter]) -> Result<Vec<u8>, NoMemory>
    ensures { IfOk result
        (λ text. text.items ≡ letters_text (declared_by script.now) [] letters.now) }
{
    let mut windows = opened(alloc, script)?;
    let mut text = Vec::new(alloc);
    for letter in letters {
        write_if_invoked(&mut text, script, &mut windows, letter)?;
    }
    Ok(text)
}

/// A letter behind others is heard, and its line is written where it invokes a view.
fn write_if_invoked(
    text: &mut Vec<u8>,
    script: &Script,
    windows: &mut [Buttons],
    letter: &TakenLetter,
) -> Result<(), NoMemory>
    ensures heard { OnOk result ((before : List TakenLetter)
        → AreWindows (declared_by script.now) before windows.old
        → AreWindows (declared_by script.now) (before ++ letter.now ∷ []) windows.new) }
    ensures text { OnOk result ((before : List TakenLetter)
        → AreWindows (declared_by script.now) before windows.old
        → text.new.items ≡ text.old.items
        ++ letter_text (declared_by script.now) before letter.now letter.now.target) }
{
    let window = usize::from(letter.window);
    if window >= windows.len() {
        return Ok(());
    }
    let invoked = windows[window].hear(letter);
    let Target::View(view) = letter.target else {
        return Ok(());
    };
    if invoked {
        write_invoked(text, script, letter.window, view, letter.number)
    } else {
        Ok(())
    }
}
