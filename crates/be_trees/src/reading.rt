ghost use Rattle.std.specs.Prelude.{◌≡◌, ◌≢◌, ◌==◌, ◌&&◌, ◌%◌, ℕ, List, [], ◌∷◌, ◌++◌, IfOk};
ghost use Rattle.std.specs.Prelude.{MatchOption, length, option_map};
ghost use Rattle.std.specs.List.{list_all};
ghost use Rattle.be_lex.specs.Hex.{is_hex_digit};
ghost use Rattle.be_trees.specs.Faults.{IsRead};
ghost use Rattle.be_trees.specs.Reading.{bytes_in, tree_of_bytes, tree_of_line, tree_of_text};

use be_archive::{ArchiveFault, unarchive};
use be_command::Reason;
use be_flat::{FlatError, unflatten};
use be_geom::NoMemory;
use be_reader::ScriptFault;
use be_views::ViewTree;
use std::alloc::Global;

const LINE_BYTES: usize = 1_048_576;

/// The tree of whose archive the text is the line. It is too long on line 0, or has no such shape
/// on line 1.
#[tactic(auto, unfolding(crate::specs::Reading::tree_of_line))]
pub fn read_archive(alloc: Global, text: &[u8]) -> Result<ViewTree, ScriptFault>
    ensures { IsRead (tree_of_line text.now) result }
{
    if text.len() > LINE_BYTES {
        return Err(ScriptFault::At {
            line: 0,
            reason: Reason::TooLong,
        });
    }
    match tree_of_text(alloc, text) {
        Ok(Some(tree)) => Ok(tree),
        Ok(None) => Err(ScriptFault::At {
            line: 1,
            reason: Reason::Shape,
        }),
        Err(NoMemory) => Err(ScriptFault::NoMemory),
    }
}

/// The tree, where the text is the line of its archive.
fn tree_of_text(alloc: Global, text: &[u8]) -> Result<Option<ViewTree>, NoMemory>
    ensures { IfOk result (λ tree. tree ≡ tree_of_text text.now) }
{
    let Some(digits) = before_line_feed(text) else {
        return Ok(None);
    };
    match bytes_in(alloc, digits)? {
        Some(bytes) => tree_of_bytes(alloc, bytes.as_slice()),
        None => Ok(None),
    }
}

/// What stands before the line feed at the end, where one is there.
fn before_line_feed(text: &[u8]) -> Option<&[u8]>
    ensures { MatchOption result ((line : List ℕ) → text.now ≢ line ++ 10 ∷ [])
        (λ line. text.now ≡ line.now ++ 10 ∷ []) }
{
    let (last, line) = text.split_last()?;
    if *last == b'\n' { Some(line) } else { None }
}

/// The bytes, where they are written by digits, two of each.
fn bytes_in(alloc: Global, digits: &[u8]) -> Result<Option<Vec<u8>>, NoMemory>
    ensures { IfOk result
        (λ found. option_map (λ bytes. bytes.items) found ≡ bytes_in digits.now) }
{
    if !are_pairs(digits) {
        return Ok(None);
    }
    match hex::decode(alloc, digits) {
        Ok(bytes) => Ok(Some(bytes)),
        Err(_) => Err(NoMemory),
    }
}

/// Whether there are only digits, and two for each byte.
fn are_pairs(text: &[u8]) -> bool
    ensures { result ≡ (list_all is_hex_digit text.now && (length text.now % 2 == 0)) }
{
    are_hex_digits(text) && text.len() % 2 == 0
}

fn are_hex_digits(text: &[u8]) -> bool
    ensures { result ≡ list_all is_hex_digit text.now }
{
    text.iter()
        .all(|c| c.is_ascii_digit() || b'a' <= *c && *c <= b'f')
}

/// The tree, where the bytes spell its archive.
fn tree_of_bytes(alloc: Global, bytes: &[u8]) -> Result<Option<ViewTree>, NoMemory>
    ensures { IfOk result (λ tree. tree ≡ tree_of_bytes bytes.now) }
{
    let message = match unflatten(alloc, bytes) {
        Ok(message) => message,
        Err(FlatError::NoMemory) => return Err(NoMemory),
        Err(_) => return Ok(None),
    };
    match unarchive(alloc, &message) {
        Ok(tree) => Ok(Some(tree)),
        Err(ArchiveFault::NoMemory) => Err(NoMemory),
        Err(_) => Ok(None),
    }
}
