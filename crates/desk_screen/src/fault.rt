ghost use Rattle.std.specs.Prelude.{◌≡◌};

use be_desk::PlanFault;
use be_geom::NoMemory;
use be_stack::StackFault;
use be_views::ViewFault;
use std::alloc::AllocFailed;
use thiserror::Error;

/// Why a screen isn't made.
#[derive(Clone, Copy, Debug, PartialEq, Eq, Error)]
pub enum ScreenFault {
    #[error("a window isn't made")]
    Window(StackFault),
    #[error("a view isn't made")]
    View(ViewFault),
    #[error("no memory")]
    NoMemory,
}

impl From<StackFault> for ScreenFault {
    fn from(fault: StackFault) -> ScreenFault {
        ScreenFault::Window(fault)
    }
}

impl From<ViewFault> for ScreenFault {
    fn from(fault: ViewFault) -> ScreenFault {
        ScreenFault::View(fault)
    }
}

impl From<NoMemory> for ScreenFault {
    fn from(_error: NoMemory) -> ScreenFault {
        ScreenFault::NoMemory
    }
}

impl<T: Drop> From<AllocFailed<T>> for ScreenFault {
    fn from(_error: AllocFailed<T>) -> ScreenFault {
        ScreenFault::NoMemory
    }
}

/// Why a window isn't changed.
#[derive(Clone, Copy, Debug, PartialEq, Eq, Error)]
pub enum Refusal {
    /// There is no such window, or a number of the change is out of its limits.
    #[error("not a change of this screen")]
    Unasked,
    #[error("refused")]
    Planned(PlanFault),
}

impl From<PlanFault> for Refusal {
    ghost use Rattle.desk_screen.specs.declared.fault.Refusal.TheVariants.{Planned};

    ghost from_gives = { λ fault refusal. refusal ≡ Planned fault };

    fn from(fault: PlanFault) -> Refusal {
        Refusal::Planned(fault)
    }
}
