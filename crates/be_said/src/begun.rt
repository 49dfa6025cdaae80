ghost use Rattle.std.specs.Prelude.{◌≡◌};
ghost use Rattle.be_said.specs.Begun.{seen_begun};
ghost use Rattle.be_said.specs.SoFar.{has_message, row_width, window_of};

use be_actor::Instruction;
use be_color::Color;
use be_message::{Target, Text};

/// What was begun, and isn't closed.
#[derive(Drop)]
pub(crate) enum Begun {
    Nothing,
    Bitmap {
        name: Text,
        width: u16,
        height: u16,
        colors: Vec<Color>,
    },
    HandlerBody {
        window: u16,
        target: Target,
        what: u32,
        steps: Vec<Instruction>,
    },
    DrawBody {
        window: u16,
        view: u16,
        steps: Vec<Instruction>,
    },
    Program {
        name: Text,
        lock: Option<u16>,
        steps: Vec<Instruction>,
    },
}

impl Begun {
    /// The window for which a command is.
    pub(crate) fn window(&self) -> Option<u16>
        ensures { result ≡ window_of (seen_begun self.now) }
    {
        match self {
            Begun::Nothing | Begun::Bitmap { .. } => None,
            Begun::HandlerBody { window, .. } | Begun::DrawBody { window, .. } => Some(*window),
            Begun::Program { lock, .. } => *lock,
        }
    }

    /// How many pixels the next row of a bitmap has.
    pub(crate) fn row_width(&self) -> u16
        ensures { result ≡ row_width (seen_begun self.now) }
    {
        match self {
            Begun::Bitmap { width, .. } => *width,
            Begun::Nothing
            | Begun::HandlerBody { .. }
            | Begun::DrawBody { .. }
            | Begun::Program { .. } => 0,
        }
    }

    /// Whether there is a current message.
    pub(crate) fn has_message(&self) -> bool
        ensures { result ≡ has_message (seen_begun self.now) }
    {
        matches!(self, Begun::HandlerBody { .. })
    }
}
