use crate::value::Value;
use thiserror::Error;

/// A message has no field of this name.
#[derive(Clone, Copy, Debug, PartialEq, Eq, Error)]
#[error("no field has this name")]
pub struct NameNotFound;

/// Why a value was not added; it is handed back.
#[derive(Debug, Drop, Error)]
pub enum AddFault {
    /// The name is not a to z first and then a to z, 0 to 9 or `_`, 1 to 32 characters in all.
    #[error("not a name")]
    BadName(Value),
    /// A text that is too long or has a byte outside 32 to 126, or a message that lies too deep.
    #[error("a text or message past its limits")]
    BadValue(Value),
    /// The field of this name has another type.
    #[error("the field has another type")]
    BadType(Value),
    /// The message has 255 fields, or the field 255 values.
    #[error("too many fields or values")]
    TooMany(Value),
    /// There was no memory left.
    #[error("no memory")]
    NoMemory(Value),
}

/// Why a value was not found.
#[derive(Clone, Copy, Debug, PartialEq, Eq, Error)]
pub enum FindFault {
    /// No field has the name.
    #[error("no field has this name")]
    NameNotFound,
    /// The field of this name has another type.
    #[error("the field has another type")]
    BadType,
    /// The field has no value of this number.
    #[error("the field has no such value")]
    BadIndex,
}

/// Why a value was not replaced; the new one is handed back.
#[derive(Debug, Drop, Error)]
pub enum ReplaceFault {
    /// No field has the name.
    #[error("no field has this name")]
    NameNotFound(Value),
    /// The field of this name has another type.
    #[error("the field has another type")]
    BadType(Value),
    /// The field has no value of this number.
    #[error("the field has no such value")]
    BadIndex(Value),
    /// A text that is too long or has a byte outside 32 to 126, or a message that lies too deep.
    #[error("a text or message past its limits")]
    BadValue(Value),
}
