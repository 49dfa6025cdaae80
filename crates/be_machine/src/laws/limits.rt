ghost use Rattle.be_machine.specs.KeptLimits.{HandsAreShallow, LinkedAreWithinLimits};
ghost use Rattle.be_machine.specs.KeptLimits.{BufferedAreWithinLimits, NoSessionAtBegin};
ghost use Rattle.be_machine.specs.KeptLimits.{OwedNoticesAreAlone, CellsAreIdleAtSends};

/// The message that a looper handles lies at most 15 deep, so that one made with it lies at most 16
/// deep.
pub fn messages_in_hand_are_shallow()
    ensures { HandsAreShallow }
{}

/// Each command that is made and not executed yet is one that a script may say of its window, or
/// ends an update.
pub fn waiting_commands_are_within_limits()
    ensures linked { LinkedAreWithinLimits }
    ensures buffered { BufferedAreWithinLimits }
{}

/// While a looper has a notice that isn't begun, no session of its window is open.
pub fn no_session_is_open_at_a_begin()
    ensures { NoSessionAtBegin }
{}

/// Where a notice is owed, the port that it goes to is open, and no other one waits in it.
pub fn an_owed_notice_is_alone()
    ensures { OwedNoticesAreAlone }
{}

/// An application that is about to send waits for no reply, and has none.
pub fn a_cell_is_idle_at_a_send()
    ensures { CellsAreIdleAtSends }
{}
