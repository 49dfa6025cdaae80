ghost use Rattle.std.specs.Prelude.{◌≡◌, ◌<◌, ◌^◌, ◌*◌, ◌+◌, ◌++◌, pos, unsigned_abs, is_ok};
ghost use Rattle.std.specs.Prelude.{if◌then◌else◌, IsTrue, SomeIff};
ghost use Rattle.std.specs.List.{list_all};
ghost use Rattle.std.specs.Char.{is_ascii_digit};
ghost use Rattle.std.specs.Fmt.{decimal, signed_decimal};
ghost use Rattle.std.specs.Str.Parse.{digits_value};
ghost use Rattle.be_geom.specs.Points.{between, in_range};
ghost use Rattle.be_lex.specs.Numbers.{is_natural, is_signed, is_number, number_of};

use be_geom::NoMemory;
use itoa::Buffer;
use std::marker::Model;

/// A word that is a number, of any length, seen as that number.
#[derive(Drop)]
pub struct Number<'a> {
    is_negative: bool,
    digits: &'a [u8],
}

impl<'a> Model for Number<'a> {
    ghost use Rattle.std.specs.Prelude.{ℤ, IsTrue};
    ghost use Rattle.be_lex.specs.Numbers.{is_signed, signed};

    ghost Value = { ℤ };

    ghost view = { λ n. signed n.is_negative n.digits.now };

    ghost invariant = { λ n. IsTrue (is_signed n.is_negative n.digits.now) };
}

impl<'a> Number<'a> {
    /// The word as a number, where it has the form of one.
    #[tactic(auto, unfolding(crate::specs::Numbers::is_number, crate::specs::Numbers::number_of))]
    pub fn of(word: &'a [u8]) -> Option<Number<'a>>
        ensures { SomeIff result (IsTrue (is_number word.now)) (number_of word.now) }
    {
        let (is_negative, digits) = match word {
            [b'-', digits @ ..] => (true, digits),
            _ => (false, word),
        };
        if is_signed(is_negative, digits) {
            Some(Number {
                is_negative,
                digits,
            })
        } else {
            None
        }
    }

    /// The number, where it is neither below `low` nor above `high`.
    pub fn between(&self, low: i32, high: i32) -> Option<i32>
        ensures { SomeIff result (IsTrue (between low self.now high)) self.now }
    {
        let number = self.small()?;
        if i64::from(low) <= number && number <= i64::from(high) {
            Some(number as i32)
        } else {
            None
        }
    }

    /// The number, where it is a coordinate.
    pub fn coordinate(&self) -> Option<i16>
        ensures { SomeIff result (IsTrue (in_range self.now)) self.now }
    {
        Some(self.between(-32768, 32767)? as i16)
    }

    /// The number, where it is neither below 0 nor above `high`.
    pub fn up_to(&self, high: u64) -> Option<u64>
        ensures { SomeIff result (IsTrue (between (pos 0) self.now (pos high)))
            (unsigned_abs self.now) }
    {
        if self.is_negative {
            return None;
        }
        let number = natural(self.digits)?;
        if number <= high { Some(number) } else { None }
    }

    /// The number, where its digits are one of 63 bits.
    fn small(&self) -> Option<i64>
        ensures { SomeIff result (unsigned_abs self.now < 2 ^ 63) self.now }
    {
        let size = i64::try_from(natural(self.digits)?).ok()?;
        if self.is_negative {
            Some(-size)
        } else {
            Some(size)
        }
    }
}

/// Appends a number's digits, `-` before those of a negative one. Without memory nothing is
/// appended.
pub fn write_number(out: &mut Vec<u8>, number: i64) -> Result<(), NoMemory>
    ensures { out.new.items
        ≡ (if is_ok result then out.old.items ++ signed_decimal number else out.old.items) }
{
    out.extend_from_slice(Buffer::new().format(number).as_bytes())?;
    Ok(())
}

/// Appends a number's digits. Without memory nothing is appended.
pub fn write_natural(out: &mut Vec<u8>, number: u64) -> Result<(), NoMemory>
    ensures { out.new.items
        ≡ (if is_ok result then out.old.items ++ decimal number else out.old.items) }
{
    out.extend_from_slice(Buffer::new().format(number).as_bytes())?;
    Ok(())
}

/// Whether the digits are a number's, with a `-` before them or without.
fn is_signed(is_negative: bool, digits: &[u8]) -> bool
    ensures { result ≡ is_signed is_negative digits.now }
{
    is_natural(digits) && !(is_negative && digits == b"0".as_slice())
}

/// Whether the word is decimal digits without a leading zero.
fn is_natural(word: &[u8]) -> bool
    ensures { result ≡ is_natural word.now }
{
    match word {
        [] => false,
        [digit] => digit.is_ascii_digit(),
        [first, others @ ..] => first.is_ascii_digit() && *first != b'0' && are_digits(others),
    }
}

fn are_digits(bytes: &[u8]) -> bool
    ensures { result ≡ list_all is_ascii_digit bytes.now }
{
    bytes.iter().all(|b| b.is_ascii_digit())
}

/// The number that digits write, where it fits 64 bits.
fn natural(digits: &[u8]) -> Option<u64>
    requires { IsTrue (is_natural digits.now) }
    ensures { SomeIff result (digits_value 10 digits.now < 2 ^ 64) (digits_value 10 digits.now) }
{
    let mut number = 0;
    for digit in digits {
        number = with_digit(number, *digit - b'0')?;
    }
    Some(number)
}

/// The number with one more digit behind those that it has, where it fits 64 bits.
fn with_digit(number: u64, digit: u8) -> Option<u64>
    ensures { SomeIff result (10 * number + digit < 2 ^ 64) (10 * number + digit) }
{
    number.checked_mul(10)?.checked_add(u64::from(digit))
}
