ghost use Rattle.be_actor.specs.Laws.{EachAsksInTurn};

/// What an actor asks for from the first part of an instruction on, wish after wish, until it is at
/// the next one: its flush where there is one, what it is for, and for a message that is sent the
/// wait behind it. Each instruction ends, after two wishes at most, at the first part of the next.
pub fn each_instruction_asks_in_turn()
    ensures { EachAsksInTurn }
{}
