ghost use Rattle.std.specs.Prelude.{◌≡◌, ℕ, Some, Ok};
ghost use Rattle.be_reader.specs.Grammar.{script_of};
ghost use Rattle.be_reader.specs.Laws.{IsFirst, Stays, WasThere};
ghost use Rattle.be_said.specs.SoFar.{SoFar, declared_in};
ghost use Rattle.be_script.specs.Limits.{IsWithinLimits};

/// What a script says that is read keeps every limit, so that the laws of the machine hold of it.
pub fn an_accepted_script_keeps_its_limits(bytes: &[u8])
    ensures { (said : SoFar) (size : ℕ × ℕ) → script_of bytes.now ≡ Ok said
        → said.screen ≡ Some size → IsWithinLimits (declared_in said size) }
{}

/// Where a script's fault is of a line behind some of its first ones, these lines alone have no
/// fault but, at the line behind them, that something is missing or that they want too much work.
pub fn a_faulty_line_is_the_first(front: &[u8], rest: &[u8])
    ensures { IsFirst front.now rest.now }
{}

/// What is wrong with a line doesn't change by what stands behind it: where the first lines alone
/// have a fault of a line of theirs, all bytes that begin with them have it, up to as many as a
/// script may have, and the other way round.
pub fn a_lines_reason_stays(front: &[u8], rest: &[u8])
    ensures stays { Stays front.now rest.now }
    ensures was_there { WasThere front.now rest.now }
{}
