//! The parts with which a run begins.
ghost use Rattle.std.specs.Prelude.{◌≡◌, ◌^◌, ◌<◌, ◌≤◌, [], false, All, IfOk, map};
ghost use Rattle.std.specs.Prelude.{vec_len};
ghost use Rattle.be_hall.specs.Machine.{AllFit};
ghost use Rattle.be_hall.specs.Numbers.{total};
ghost use Rattle.be_machine.specs.State.{opening_state};
ghost use Rattle.be_noted.specs.Noting.{noted_of, noted_stopped};
ghost use Rattle.be_parts.specs.Parts.{log_of, meaning_of, notes_of};
ghost use Rattle.be_rules.specs.Slices.{slices};
ghost use Rattle.be_script.specs.Work.{work_of};
ghost use Rattle.be_jotted.specs.Jotting.{noted_machine};

use crate::noting::Noting;
use be_geom::NoMemory;
use be_parts::Part;

impl Noting {
    /// The parts with which a run begins, by place: nothing was noted yet. They can bring no more
    /// entries than the script's work.
    pub fn opening(&self) -> Result<Vec<Part>, NoMemory>
        ensures meant { IfOk result
            (λ parts. map meaning_of parts.items ≡ slices self.now (opening_state self.now)) }
        ensures notes { IfOk result (λ parts. All (λ part. notes_of part ≡ []) parts.items) }
        ensures few { IfOk result (λ parts. vec_len parts < 2 ^ 32) }

        // A run may begin with them.
        ensures sound { IfOk result
            (λ parts. (noted_machine self.now).sound (map noted_of parts.items)) }
        ensures unclosed { IfOk result
            (λ parts. noted_stopped self.now (map noted_of parts.items) ≡ false) }
        ensures budgets { IfOk result (λ parts.
            total (noted_machine self.now).budget (map noted_of parts.items) ≤ work_of self.now) }
        ensures fits { IfOk result
            (λ parts. AllFit (noted_machine self.now).fits 0 (map noted_of parts.items)) }
        ensures logs { IfOk result (λ parts. All (λ part. log_of part ≡ []) parts.items) }
    {
        self.world.opening()
    }
}
