ghost use Rattle.std.specs.Prelude.{◌≡◌};

use be_world::World;
use std::marker::Model;

/// The rules of a script's run whose parts keep what is noted of their entries, seen as what the
/// script declares.
#[derive(Drop)]
pub struct Noting {
    pub(crate) world: World,
}

impl Model for Noting {
    ghost use Rattle.std.specs.Coded.{codes};
    ghost use Rattle.be_message.specs.Codes.{datum_code, message_code};
    ghost use Rattle.be_script.specs.Script.{Declared};

    ghost Value = { Declared };

    ghost coded = { Prim.hlevel (codes, datum_code, message_code) };

    ghost view = { λ n. n.world };
}

impl Noting {
    /// The rules of a world whose entries are noted.
    pub fn new(world: World) -> Noting
        ensures { result ≡ world }
    {
        Noting { world }
    }

    /// The rules without notes.
    pub fn world(&self) -> &World
        ensures { result.now ≡ self.now }
    {
        &self.world
    }

    /// The rules without notes, given back.
    pub fn into_world(self) -> World
        ensures { result ≡ self }
    {
        self.world
    }
}

/// What a part means in clauses: its slice of a state, and what was noted there. No value of it is
/// made.
pub struct NotedMeaning {
    nothing: (),
}

impl Model for NotedMeaning {
    ghost use Rattle.std.specs.Prelude.{ℕ, []};
    ghost use Rattle.be_noting.specs.Noting.{Noted};
    ghost use Rattle.be_rules.specs.Slices.{Slice};

    ghost Value = { Noted Slice ℕ };

    ghost use Rattle.std.specs.Coded.{codes};
    ghost use Rattle.be_message.specs.Codes.{message_code};
    ghost use Rattle.be_reply.specs.Codes.{cell_code};

    ghost coded = { Prim.hlevel (codes, message_code, cell_code) };

    ghost use Rattle.std.specs.Prelude.{false};
    ghost use Rattle.be_rules.specs.Slices.{input};

    ghost view = { λ m. record { means = input 0 false; notes = [] } };
}
