//! A letter, heard by the buttons of its window.
ghost use Rattle.std.specs.Prelude.{◌≡◌, ◌∷◌, [], ◌++◌, List, map, OnOk};
ghost use Rattle.be_pressed.specs.ButtonText.{is_for};
ghost use Rattle.be_pressed.specs.Hearing.{HaveHeard, is_invoked};
ghost use Rattle.be_pressed.specs.declared.letter.TakenLetter.{TakenLetter};

use crate::letter::TakenLetter;
use be_control::{Button, Pressed};
use be_geom::NoMemory;
use be_message::Target;
use std::alloc::Global;
use std::marker::Model;

/// The buttons of a window, by the numbers of its views. They are seen as the list of them.
#[derive(Drop)]
pub(crate) struct Buttons {
    buttons: Vec<Button>,
}

impl Model for Buttons {
    ghost use Rattle.std.specs.Prelude.{List};
    ghost use Rattle.be_control.specs.Buttons.{Button};

    ghost Value = { List Button };

    ghost view = { λ b. b.buttons.items };
}

impl Buttons {
    pub(crate) fn new(alloc: Global) -> Buttons
        ensures { result ≡ [] }
    {
        Buttons {
            buttons: Vec::new(alloc),
        }
    }

    /// That of the next view.
    pub(crate) fn add(&mut self, button: Button) -> Result<(), NoMemory>
        ensures { OnOk result (self.new ≡ self.old ++ button ∷ []) }
    {
        self.buttons.push(button)?;
        Ok(())
    }

    /// A letter of their window is heard. Gives whether it invokes the view that it is for.
    pub(crate) fn hear(&mut self, letter: &TakenLetter) -> bool
        ensures bounds { map (λ b. b.bounds) self.new ≡ map (λ b. b.bounds) self.old }
        ensures heard { (before : List TakenLetter) → HaveHeard letter.now.window before self.old
            → HaveHeard letter.now.window (before ++ letter.now ∷ []) self.new }
        ensures invoked { (before : List TakenLetter)
            → HaveHeard letter.now.window before self.old
            → result ≡ is_invoked before letter.now self.old letter.now.target }
    {
        hear_each(&mut self.buttons, letter)
    }
}

fn hear_each(buttons: &mut [Button], letter: &TakenLetter) -> bool
    ensures bounds { map (λ b. b.bounds) buttons.new ≡ map (λ b. b.bounds) buttons.old }
    ensures heard { (before : List TakenLetter) → HaveHeard letter.now.window before buttons.old
        → HaveHeard letter.now.window (before ++ letter.now ∷ []) buttons.new }
    ensures invoked { (before : List TakenLetter) → HaveHeard letter.now.window before buttons.old
        → result ≡ is_invoked before letter.now buttons.old letter.now.target }
{
    let mut invoked = false;
    for (v, button) in buttons.iter_mut().enumerate() {
        let own = is_for(v, letter.target);
        if let Pressed::Invoked = button.hear(own, &letter.message) {
            invoked = true;
        }
    }
    invoked
}

/// Whether a letter for this target is for this view.
fn is_for(view: usize, target: Target) -> bool
    ensures { result ≡ is_for view target }
{
    match target {
        Target::View(other) => view == usize::from(other),
        Target::Window | Target::Plain(_) => false,
    }
}
