use be_geom::NoMemory;
use desk_screen::{Refusal, ScreenFault};
use thiserror::Error;

/// Why the changes aren't made.
#[derive(Clone, Copy, Debug, PartialEq, Eq, Error)]
pub enum Hindrance {
    #[error("the screen isn't made")]
    Screen,
    #[error("a change is refused")]
    Change,
    #[error("no memory")]
    NoMemory,
}

impl From<ScreenFault> for Hindrance {
    fn from(_fault: ScreenFault) -> Hindrance {
        Hindrance::Screen
    }
}

impl From<Refusal> for Hindrance {
    fn from(_refusal: Refusal) -> Hindrance {
        Hindrance::Change
    }
}

impl From<NoMemory> for Hindrance {
    fn from(_error: NoMemory) -> Hindrance {
        Hindrance::NoMemory
    }
}
