ghost use Rattle.std.specs.Prelude.{◌≡◌};
ghost use Rattle.std.specs.Map.{lookup};
ghost use Rattle.std.specs.Str.{bytes_eq};
ghost use Rattle.be_line.specs.FirstWords.{declaration_words, instruction_words, statement_of};
ghost use Rattle.be_line.specs.FirstWords.{seat_of, inside, as_command, is_of_drawing};

use crate::site::{Allowed, Seat};
use be_command::FirstWord;

/// What a line of a script begins with.
#[derive(Clone, Copy, Debug, PartialEq, Eq)]
pub enum Statement {
    Screen,
    /// A bitmap that is declared; in a body the word is a command's.
    Bitmap,
    Row,
    Window,
    View,
    Handler,
    Filter,
    On,
    Draw,
    App,
    Press,
    Release,
    Point,
    Key,
    After,
    End,
    Note,
    Post,
    Send,
    Reply,
    Forward,
    Lock,
    Unlock,
    Flush,
    Sync,
    Command(FirstWord),
}

impl Statement {
    /// The statement that begins with these bytes.
    #[tactic(auto, unfolding(crate::specs::FirstWords::statement_of))]
    pub fn of(word: &[u8]) -> Option<Statement>
        ensures { result ≡ statement_of word.now }
    {
        if let Some(statement) = declaration(word) {
            return Some(statement);
        }
        if let Some(statement) = instruction(word) {
            return Some(statement);
        }
        Some(Statement::Command(FirstWord::of(word)?))
    }

    /// Where a line with it has its place.
    pub fn seat(self) -> Seat
        ensures { result ≡ seat_of self }
    {
        match self {
            Statement::Screen => Seat::FirstLine,
            Statement::Bitmap
            | Statement::Window
            | Statement::View
            | Statement::Handler
            | Statement::Filter
            | Statement::On
            | Statement::Draw
            | Statement::App
            | Statement::Press
            | Statement::Release
            | Statement::Point
            | Statement::Key
            | Statement::After => Seat::Apart,
            Statement::Row => Seat::ARow,
            Statement::End => inside(true, true, true, false),
            Statement::Note => inside(true, true, true, true),
            Statement::Post => inside(true, false, true, true),
            Statement::Send => inside(false, false, true, false),
            Statement::Reply | Statement::Forward => inside(true, false, false, false),
            Statement::Lock => inside(false, false, true, false),
            Statement::Unlock => inside(false, false, false, true),
            Statement::Flush | Statement::Sync => inside(true, true, false, true),
            Statement::Command(word) => inside(true, is_of_drawing(word), false, true),
        }
    }

    /// The statement as a body reads it: there `bitmap` is a command.
    pub fn as_command(self) -> Statement
        ensures { result ≡ as_command self }
    {
        match self {
            Statement::Bitmap => Statement::Command(FirstWord::Bitmap),
            other => other,
        }
    }
}

/// What is declared, and what comes in.
fn declaration(word: &[u8]) -> Option<Statement>
    ensures { result ≡ lookup (bytes_eq word.now) declaration_words }
{
    if word == b"screen".as_slice() {
        Some(Statement::Screen)
    } else if word == b"bitmap".as_slice() {
        Some(Statement::Bitmap)
    } else if word == b"row".as_slice() {
        Some(Statement::Row)
    } else if word == b"window".as_slice() {
        Some(Statement::Window)
    } else if word == b"view".as_slice() {
        Some(Statement::View)
    } else if word == b"handler".as_slice() {
        Some(Statement::Handler)
    } else if word == b"filter".as_slice() {
        Some(Statement::Filter)
    } else if word == b"on".as_slice() {
        Some(Statement::On)
    } else if word == b"draw".as_slice() {
        Some(Statement::Draw)
    } else if word == b"app".as_slice() {
        Some(Statement::App)
    } else if word == b"press".as_slice() {
        Some(Statement::Press)
    } else if word == b"release".as_slice() {
        Some(Statement::Release)
    } else if word == b"point".as_slice() {
        Some(Statement::Point)
    } else if word == b"key".as_slice() {
        Some(Statement::Key)
    } else if word == b"after".as_slice() {
        Some(Statement::After)
    } else {
        None
    }
}

/// What stands in bodies and programs, beside commands.
fn instruction(word: &[u8]) -> Option<Statement>
    ensures { result ≡ lookup (bytes_eq word.now) instruction_words }
{
    if word == b"end".as_slice() {
        Some(Statement::End)
    } else if word == b"note".as_slice() {
        Some(Statement::Note)
    } else if word == b"post".as_slice() {
        Some(Statement::Post)
    } else if word == b"send".as_slice() {
        Some(Statement::Send)
    } else if word == b"reply".as_slice() {
        Some(Statement::Reply)
    } else if word == b"forward".as_slice() {
        Some(Statement::Forward)
    } else if word == b"lock".as_slice() {
        Some(Statement::Lock)
    } else if word == b"unlock".as_slice() {
        Some(Statement::Unlock)
    } else if word == b"flush".as_slice() {
        Some(Statement::Flush)
    } else if word == b"sync".as_slice() {
        Some(Statement::Sync)
    } else {
        None
    }
}

/// Whether a Draw body may have the command: it draws, or sets what drawing goes by.
fn is_of_drawing(word: FirstWord) -> bool
    ensures { result ≡ is_of_drawing word }
{
    match word {
        FirstWord::Fill
        | FirstWord::Frame
        | FirstWord::Line
        | FirstWord::Text
        | FirstWord::Bitmap
        | FirstWord::High
        | FirstWord::Low
        | FirstWord::ViewColor
        | FirstWord::Mode
        | FirstWord::PenSize
        | FirstWord::Pen
        | FirstWord::Origin
        | FirstWord::Clip
        | FirstWord::Push
        | FirstWord::Pop => true,
        FirstWord::CopyBits
        | FirstWord::Invalidate
        | FirstWord::Show
        | FirstWord::Hide
        | FirstWord::MoveTo
        | FirstWord::MoveBy
        | FirstWord::ResizeTo
        | FirstWord::Activate
        | FirstWord::Behind
        | FirstWord::Focus
        | FirstWord::Close => false,
    }
}

/// The place of an instruction: bodies of handlers, Draw bodies, programs without a lock and under
/// one.
fn inside(in_handler: bool, in_draw: bool, in_program: bool, under_lock: bool) -> Seat
    ensures { result ≡ inside in_handler in_draw in_program under_lock }
{
    Seat::Inside(Allowed {
        in_handler,
        in_draw,
        in_program,
        under_lock,
    })
}
