ghost use Rattle.std.specs.Prelude.{◌≡◌, ◌&&◌, ◌-◌, true, nat_le, nat_lt, length};
ghost use Rattle.be_flat.specs.Reading.{Gives, byte_at, byte_that, u16_at, u32_at, coordinate_at};

use crate::fault::FlatError;
use std::marker::Model;

/// Bytes that are read from the first one on.
#[derive(Drop)]
pub(crate) struct Cursor<'a> {
    rest: &'a [u8],
    /// How many bytes there are, those that were read among them.
    len: usize,
}

impl<'a> Model for Cursor<'a> {
    ghost use Rattle.std.specs.Prelude.{◌-◌, ◌≤◌, length};
    ghost use Rattle.be_flat.specs.Reading.{Rest};

    ghost Value = { Rest };

    ghost view = { λ c. record { bytes = c.rest.now; at = c.len - length c.rest.now } };

    ghost invariant = { λ c. length c.rest.now ≤ c.len };
}

impl<'a> Cursor<'a> {
    pub(crate) fn over(bytes: &'a [u8]) -> Cursor<'a>
        ensures { result ≡ record { bytes = bytes.now; at = 0 } }
    {
        Cursor {
            rest: bytes,
            len: bytes.len(),
        }
    }

    /// The place of the next byte.
    pub(crate) fn at(&self) -> usize
        ensures { result ≡ self.now.at }
    {
        self.len - self.rest.len()
    }

    /// The bytes that are left.
    pub(crate) fn rest(&self) -> &'a [u8]
        ensures { result.now ≡ self.now.bytes }
    {
        self.rest
    }

    #[tactic(auto, unfolding(crate::specs::Reading::byte_at))]
    pub(crate) fn byte(&mut self) -> Result<u8, FlatError>
        ensures { Gives (λ b. (b, self.new)) result (byte_at self.old) }
    {
        match self.rest.split_first() {
            Some((byte, rest)) => {
                self.rest = rest;
                Ok(*byte)
            }
            None => Err(FlatError::Truncated { at: self.len }),
        }
    }

    #[tactic(auto, unfolding(crate::specs::Reading::u16_at))]
    pub(crate) fn u16(&mut self) -> Result<u16, FlatError>
        ensures { Gives (λ n. (n, self.new)) result (u16_at self.old) }
    {
        Ok(u16::from_le_bytes([self.byte()?, self.byte()?]))
    }

    #[tactic(auto, unfolding(crate::specs::Reading::u32_at))]
    pub(crate) fn u32(&mut self) -> Result<u32, FlatError>
        ensures { Gives (λ n. (n, self.new)) result (u32_at self.old) }
    {
        Ok(u32::from_le_bytes([self.byte()?, self.byte()?, self.byte()?, self.byte()?]))
    }

    #[tactic(auto, unfolding(crate::specs::Reading::coordinate_at))]
    pub(crate) fn coordinate(&mut self) -> Result<i16, FlatError>
        ensures { Gives (λ z. (z, self.new)) result (coordinate_at self.old) }
    {
        Ok(self.u16()?.cast_signed())
    }
}
