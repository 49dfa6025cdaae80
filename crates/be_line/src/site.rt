ghost use Rattle.std.specs.Prelude.{◌≡◌};
ghost use Rattle.be_line.specs.FirstWords.{misplaced, unless_allowed};

use be_command::Reason;

/// Between which lines a line stands.
#[derive(Clone, Copy, Debug, PartialEq, Eq)]
pub enum Site {
    /// Before the screen's line.
    AtStart,
    /// Behind it, and outside of all that is closed later.
    Outside,
    /// Where rows of a bitmap are missing.
    AmongRows,
    /// In the body of a handler.
    InHandler,
    /// In a Draw body.
    InDraw,
    /// In a program without a lock.
    InProgram,
    /// In a program under a lock.
    UnderLock,
}

/// Where a line with a first word has its place.
#[derive(Clone, Copy, Debug, PartialEq, Eq)]
pub enum Seat {
    /// The screen's.
    FirstLine,
    /// Outside of all that is closed later.
    Apart,
    /// A row's.
    ARow,
    Inside(Allowed),
}

/// In which bodies and programs an instruction is allowed.
#[derive(Clone, Copy, Debug, PartialEq, Eq)]
pub struct Allowed {
    pub in_handler: bool,
    pub in_draw: bool,
    pub in_program: bool,
    pub under_lock: bool,
}

impl Site {
    /// Why a line that has its place elsewhere may not stand here, where it may not.
    pub fn refuses(self, seat: Seat) -> Option<Reason>
        ensures { result ≡ misplaced self seat }
    {
        match (self, seat) {
            (Site::AtStart, Seat::FirstLine)
            | (Site::Outside, Seat::Apart)
            | (Site::AmongRows, Seat::ARow) => None,
            (Site::InHandler, Seat::Inside(allowed)) => unless_allowed(allowed.in_handler),
            (Site::InDraw, Seat::Inside(allowed)) => unless_allowed(allowed.in_draw),
            (Site::InProgram, Seat::Inside(allowed)) => unless_allowed(allowed.in_program),
            (Site::UnderLock, Seat::Inside(allowed)) => unless_allowed(allowed.under_lock),
            _ => Some(Reason::Place),
        }
    }
}

/// An instruction that this body doesn't allow.
fn unless_allowed(allowed: bool) -> Option<Reason>
    ensures { result ≡ unless_allowed allowed }
{
    if allowed { None } else { Some(Reason::NotHere) }
}
