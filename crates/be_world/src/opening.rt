//! The parts with which a run begins.
ghost use Rattle.std.specs.Prelude.{◌≡◌, ◌^◌, ◌<◌, ◌≤◌, [], false, All, IfOk, map};
ghost use Rattle.std.specs.Prelude.{vec_len};
ghost use Rattle.be_hall.specs.Machine.{AllFit};
ghost use Rattle.be_hall.specs.Numbers.{total};
ghost use Rattle.be_machine.specs.State.{opening_state};
ghost use Rattle.be_parts.specs.Parts.{log_of, meaning_of, notes_of};
ghost use Rattle.be_rules.specs.Rules.{IsSound, SliceFits};
ghost use Rattle.be_rules.specs.Shares.{share};
ghost use Rattle.be_rules.specs.Slices.{slices};
ghost use Rattle.be_script.specs.Work.{work_of};
ghost use Rattle.be_world.specs.Turns.{has_stopped};

use crate::world::World;
use be_geom::NoMemory;
use be_opening::opening;
use be_parts::Part;
use be_rules::laws::the_opening_is_sound;

impl World {
    /// The parts with which a run begins, by place. They can bring no more entries than the
    /// script's work. No pixel is looked at.
    pub fn opening(&self) -> Result<Vec<Part>, NoMemory>
        ensures meant { IfOk result
            (λ parts. map meaning_of parts.items ≡ slices self.now (opening_state self.now)) }
        ensures few { IfOk result (λ parts. vec_len parts < 2 ^ 32) }

        // A run may begin with them.
        ensures sound { IfOk result (λ parts. IsSound self.now (map meaning_of parts.items)) }
        ensures unclosed { IfOk result
            (λ parts. has_stopped self.now (map meaning_of parts.items) ≡ false) }
        ensures budgets { IfOk result
            (λ parts. total (share self.now) (map meaning_of parts.items) ≤ work_of self.now) }
        ensures fits { IfOk result (λ parts. AllFit SliceFits 0 (map meaning_of parts.items)) }
        ensures logs { IfOk result (λ parts. All (λ part. log_of part ≡ []) parts.items) }
        ensures notes { IfOk result (λ parts. All (λ part. notes_of part ≡ []) parts.items) }
    {
        the_opening_is_sound();
        opening(self.alloc, &self.script)
    }
}
