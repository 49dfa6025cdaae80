//! The rules of a hall, and how many places they have.
ghost use Rattle.std.specs.Prelude.{◌≡◌};

use crate::parts::Parts;

/// The rules of a hall, with the number of its places.
#[derive(Drop)]
pub struct Rulebook<P: Parts + Drop> {
    pub(crate) rules: P,
    pub(crate) places: u32,
    ghost counted: { places ≡ (P.machine rules).places },
}
