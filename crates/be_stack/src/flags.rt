ghost use Rattle.std.specs.Prelude.{⊤, [], ◌∷◌, codes};

use bitflags::{Flag, Flags, bitflag_items};

/// What the flags of a window's constructor say, as far as they are built.
#[derive(Clone, Copy, Debug, PartialEq, Eq)]
pub struct WindowFlags(u8);

bitflag_items! {
    impl WindowFlags: u8 {
        /// `B_WILL_ACCEPT_FIRST_CLICK`: a press that activates the window reaches its views too.
        const FIRST_CLICK = 1;
        /// `B_AVOID_FOCUS`: the window doesn't become the active one.
        const AVOID_FOCUS = 2;
    }
}

impl Flags for WindowFlags {
    type Bits = u8;

    ghost exact = { ⊤ };

    ghost table = { (codes "FIRST_CLICK", 1) ∷ (codes "AVOID_FOCUS", 2) ∷ [] };

    ghost set_of = { λ flags. flags.0 };

    fn flags<'a>() -> &'a [Flag<WindowFlags>] {
        WindowFlags::FLAGS
    }

    fn bits(&self) -> u8 {
        self.0
    }

    fn from_bits_retain(bits: u8) -> WindowFlags {
        WindowFlags(bits)
    }
}
