ghost use Rattle.std.specs.Prelude.{◌≡◌, ◌≤◌, IfSome, map, string_bytes};
ghost use Rattle.app_server.specs.Commands.{IsInRange, IsSide, archive_read, command_of};
ghost use Rattle.app_server.specs.Commands.{drill_read, make_read, number_up_to, picture_read};
ghost use Rattle.app_server.specs.Commands.{pixel_read, seed_read, side_of};
ghost use Rattle.be_report.specs.Readers.{all_of, gives};

use crate::first_word::FirstWord;
use be_lex::Number;

/// What the words on the command line ask for.
#[derive(Clone, Copy, Debug, PartialEq, Eq)]
pub enum CommandWords {
    /// `run`: the script, on a thread for each activity.
    Run,
    /// `serial S`: the script, on one thread, by the schedule of this seed. For seed 0 the first
    /// activity that can step always does.
    Serial(u32),
    /// `check`: how much work a script is, and how many activities run it.
    Check,
    /// `make N`: the script that is made of this number.
    Make(u16),
    /// `drill N`: that script, on one thread, by the schedule of this seed, and what came of it in
    /// five numbers.
    Drill(u16),
    /// `replay`: whether a report is one of its script's, which is written again then.
    Replay,
    /// `explain X Y`: the colour of a pixel of the screen, and the entry that gave it.
    Explain(u16, u16),
    /// `picture W H`: what a picture draws on white pixels, so many across and down.
    Picture(u16, u16),
    /// `archive N`: the view tree of a script's window, as the bytes of a message.
    Archive(u16),
    /// `unarchive`: the view tree of such bytes.
    Unarchive,
    /// `buttons`: which letters of a script and a report of it press a view.
    Buttons,
}

/// The command that the words spell, if they spell one.
pub fn command(words: &[String]) -> Option<CommandWords>
    ensures command { result ≡ command_of (map string_bytes words.now) }
    ensures range { IfSome result IsInRange }
{
    let [first, rest @ ..] = words else {
        return None;
    };
    match FirstWord::of(first.as_str())? {
        FirstWord::Run => alone(rest, CommandWords::Run),
        FirstWord::Serial => serial(rest),
        FirstWord::Check => alone(rest, CommandWords::Check),
        FirstWord::Make => make(rest),
        FirstWord::Drill => drill(rest),
        FirstWord::Replay => alone(rest, CommandWords::Replay),
        FirstWord::Explain => explain(rest),
        FirstWord::Picture => picture(rest),
        FirstWord::Archive => archive(rest),
        FirstWord::Unarchive => alone(rest, CommandWords::Unarchive),
        FirstWord::Buttons => alone(rest, CommandWords::Buttons),
    }
}

/// A command of one word.
fn alone(rest: &[String], command: CommandWords) -> Option<CommandWords>
    ensures { result ≡ all_of (gives command) (map string_bytes rest.now) }
{
    if rest.is_empty() { Some(command) } else { None }
}

fn serial(rest: &[String]) -> Option<CommandWords>
    ensures command { result ≡ all_of seed_read (map string_bytes rest.now) }
    ensures range { IfSome result IsInRange }
{
    let [seed] = rest else {
        return None;
    };
    Some(CommandWords::Serial(seed_of(seed.as_str().as_bytes())?))
}

fn make(rest: &[String]) -> Option<CommandWords>
    ensures command { result ≡ all_of make_read (map string_bytes rest.now) }
    ensures range { IfSome result IsInRange }
{
    let [number] = rest else {
        return None;
    };
    Some(CommandWords::Make(number_of(number.as_str().as_bytes(), 65_535)?))
}

fn drill(rest: &[String]) -> Option<CommandWords>
    ensures command { result ≡ all_of drill_read (map string_bytes rest.now) }
    ensures range { IfSome result IsInRange }
{
    let [number] = rest else {
        return None;
    };
    Some(CommandWords::Drill(number_of(number.as_str().as_bytes(), 65_535)?))
}

fn explain(rest: &[String]) -> Option<CommandWords>
    ensures command { result ≡ all_of pixel_read (map string_bytes rest.now) }
    ensures range { IfSome result IsInRange }
{
    let [x, y] = rest else {
        return None;
    };
    let x = number_of(x.as_str().as_bytes(), 1_023)?;
    let y = number_of(y.as_str().as_bytes(), 767)?;
    Some(CommandWords::Explain(x, y))
}

fn picture(rest: &[String]) -> Option<CommandWords>
    ensures command { result ≡ all_of picture_read (map string_bytes rest.now) }
    ensures range { IfSome result IsInRange }
{
    let [width, height] = rest else {
        return None;
    };
    let width = side_of(width.as_str().as_bytes())?;
    let height = side_of(height.as_str().as_bytes())?;
    Some(CommandWords::Picture(width, height))
}

fn archive(rest: &[String]) -> Option<CommandWords>
    ensures command { result ≡ all_of archive_read (map string_bytes rest.now) }
    ensures range { IfSome result IsInRange }
{
    let [window] = rest else {
        return None;
    };
    Some(CommandWords::Archive(number_of(window.as_str().as_bytes(), 31)?))
}

/// Decimal digits without a leading 0.
fn seed_of(word: &[u8]) -> Option<u32>
    ensures { result ≡ number_up_to 4294967295 word.now }
{
    let seed = Number::of(word)?.up_to(u64::from(u32::MAX))?;
    Some(seed as u32)
}

/// A number from 0 to `most`.
fn number_of(word: &[u8], most: u16) -> Option<u16>
    ensures number { result ≡ number_up_to most word.now }
    ensures within { IfSome result (λ number. number ≤ most) }
{
    let number = Number::of(word)?.up_to(u64::from(most))?;
    Some(number as u16)
}

/// A number from 1 to 256.
fn side_of(word: &[u8]) -> Option<u16>
    ensures side { result ≡ side_of word.now }
    ensures within { IfSome result IsSide }
{
    let side = number_of(word, 256)?;
    if side >= 1 { Some(side) } else { None }
}
