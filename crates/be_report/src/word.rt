ghost use Rattle.std.specs.Prelude.{◌≡◌, ◌-◌, ◌^◌, min};
ghost use Rattle.std.specs.Map.{lookup};
ghost use Rattle.std.specs.Option.{option_map};
ghost use Rattle.std.specs.Str.{bytes_eq};
ghost use Rattle.be_report.specs.Lines.{is_plain};
ghost use Rattle.be_report.specs.Entries.{replies, answers, outcomes, begins, ends};
ghost use Rattle.be_report.specs.Readers.{number_within, natural_of};
ghost use Rattle.be_script.specs.Programs.{is_note};

// What one word says.

use be_lex::Number;
use be_machine::{Answered, EndAnswer, Replied};
use be_twin::Outcome;

/// A number of 64 bits.
pub(crate) fn count_of(word: &[u8]) -> Option<u64>
    ensures { result ≡ number_within 64 word.now }
{
    Number::of(word)?.up_to(u64::MAX)
}

/// A number of 32 bits.
pub(crate) fn share_of(word: &[u8]) -> Option<u32>
    ensures { result ≡ number_within 32 word.now }
{
    let number = Number::of(word)?.up_to(u64::from(u32::MAX))?;
    Some(number as u32)
}

/// A number from 0 on; one that is too great for 64 bits counts as the greatest of those.
pub(crate) fn natural_of(word: &[u8]) -> Option<u64>
    ensures { result ≡ option_map (λ n. min n (2 ^ 64 - 1)) (natural_of word.now) }
{
    let number = Number::of(word)?;
    if word[0] == b'-' {
        return None;
    }
    Some(number.up_to(u64::MAX).unwrap_or(u64::MAX))
}

/// Whether the word is one that a note can have: 1 to 32 bytes, each 33 to 126.
pub(crate) fn is_note(word: &[u8]) -> bool
    ensures { result ≡ is_note word.now }
{
    1 <= word.len() && word.len() <= 32 && are_plain(word)
}

fn are_plain(word: &[u8]) -> bool
    ensures { result ≡ is_plain word.now }
{
    word.iter().all(|b| 33 <= *b && *b <= 126)
}

pub(crate) fn replied_of(word: &[u8]) -> Option<Replied>
    ensures { result ≡ lookup (bytes_eq word.now) replies }
{
    if word == b"ok".as_slice() {
        Some(Replied::Accepted)
    } else if word == b"duplicate".as_slice() {
        Some(Replied::Duplicate)
    } else if word == b"unwanted".as_slice() {
        Some(Replied::Unwanted)
    } else {
        None
    }
}

pub(crate) fn answered_of(word: &[u8]) -> Option<Answered>
    ensures { result ≡ lookup (bytes_eq word.now) answers }
{
    if word == b"reply".as_slice() {
        Some(Answered::Reply)
    } else if word == b"noreply".as_slice() {
        Some(Answered::NoReply)
    } else if word == b"unknown".as_slice() {
        Some(Answered::Unknown)
    } else {
        None
    }
}

pub(crate) fn outcome_of(word: &[u8]) -> Option<Outcome>
    ensures { result ≡ lookup (bytes_eq word.now) outcomes }
{
    if word == b"done".as_slice() {
        Some(Outcome::Done)
    } else if word == b"stackfull".as_slice() {
        Some(Outcome::StackFull)
    } else if word == b"stackempty".as_slice() {
        Some(Outcome::StackEmpty)
    } else if word == b"noview".as_slice() {
        Some(Outcome::NoView)
    } else if word == b"nobitmap".as_slice() {
        Some(Outcome::NoBitmap)
    } else if word == b"offrange".as_slice() {
        Some(Outcome::OffRange)
    } else if word == b"gone".as_slice() {
        Some(Outcome::Gone)
    } else {
        None
    }
}

/// Whether a session opened.
pub(crate) fn opened_of(word: &[u8]) -> Option<bool>
    ensures { result ≡ lookup (bytes_eq word.now) begins }
{
    if word == b"open".as_slice() {
        Some(true)
    } else if word == b"nothing".as_slice() {
        Some(false)
    } else {
        None
    }
}

pub(crate) fn end_of(word: &[u8]) -> Option<EndAnswer>
    ensures { result ≡ lookup (bytes_eq word.now) ends }
{
    if word == b"none".as_slice() {
        Some(EndAnswer::Nothing)
    } else if word == b"noreply".as_slice() {
        Some(EndAnswer::NoReply)
    } else if word == b"unknown".as_slice() {
        Some(EndAnswer::Unknown)
    } else {
        None
    }
}
