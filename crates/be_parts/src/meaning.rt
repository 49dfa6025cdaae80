use std::marker::Model;

/// What a part means in clauses: its slice of a state. No value of it is made.
pub struct Meaning {
    nothing: (),
}

impl Model for Meaning {
    ghost use Rattle.be_rules.specs.Slices.{Slice};

    ghost Value = { Slice };

    ghost use Rattle.std.specs.Coded.{codes};
    ghost use Rattle.be_message.specs.Codes.{message_code};
    ghost use Rattle.be_reply.specs.Codes.{cell_code};

    ghost coded = { Prim.hlevel (codes, message_code, cell_code) };

    ghost use Rattle.std.specs.Prelude.{false};
    ghost use Rattle.be_rules.specs.Slices.{input};

    ghost view = { λ m. input 0 false };
}
