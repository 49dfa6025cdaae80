ghost use Rattle.std.specs.Prelude.{◌≡◌, ◌++◌, IfOk, codes};
ghost use Rattle.be_lex.specs.Colors.{color_text};
ghost use Rattle.be_lex.specs.Patterns.{pattern_text};
ghost use Rattle.be_command.specs.Spelling.{spaced, pair_words, point_words, rect_words};
ghost use Rattle.be_command.specs.Spelling.{clip_words, change_line, spelling};

use crate::names::Names;
use crate::spelling::{
    push_color, push_mode, push_number, push_pair, push_pattern, push_point, push_rect, push_rects,
    push_word,
};
use crate::{Clip, Command};
use be_color::{Color, Pattern};
use be_geom::{Change, NoMemory, Point, Rect};
use std::alloc::Global;

/// The line of a command, without a line feed: the one spelling that it has. `EndUpdate` has no
/// line, and gives no bytes; a number without a name is written as nothing.
#[tactic(auto, unfolding(crate::specs::Spelling::spelling))]
pub fn write_command(alloc: Global, command: &Command, names: &Names) -> Result<Vec<u8>, NoMemory>
    ensures { IfOk result (λ line. line.items ≡ spelling names.now command.now) }
{
    match command {
        Command::Fill(view, rect, pattern) => {
            with_rect_and_pattern(alloc, b"fill", names.view_name(*view), *rect, *pattern)
        }
        Command::Frame(view, rect, pattern) => {
            with_rect_and_pattern(alloc, b"frame", names.view_name(*view), *rect, *pattern)
        }
        Command::Line(view, from, to, pattern) => {
            let mut line = with_point(alloc, b"line", names.view_name(*view), *from)?;
            push_point(&mut line, *to)?;
            push_pattern(&mut line, *pattern)?;
            Ok(line)
        }
        Command::Text(view, text) => {
            let mut line = with_name(alloc, b"text", names.view_name(*view))?;
            push_word(&mut line, text.as_slice())?;
            Ok(line)
        }
        Command::Bitmap(view, bitmap, at) => {
            let mut line = with_name(alloc, b"bitmap", names.view_name(*view))?;
            push_word(&mut line, names.bitmap_name(*bitmap))?;
            push_point(&mut line, *at)?;
            Ok(line)
        }
        Command::High(view, color) => with_color(alloc, b"high", names.view_name(*view), *color),
        Command::Low(view, color) => with_color(alloc, b"low", names.view_name(*view), *color),
        Command::ViewColor(view, color) => {
            with_color(alloc, b"viewcolor", names.view_name(*view), *color)
        }
        Command::Mode(view, mode) => {
            let mut line = with_name(alloc, b"mode", names.view_name(*view))?;
            push_mode(&mut line, *mode)?;
            Ok(line)
        }
        Command::PenSize(view, size) => {
            let mut line = with_name(alloc, b"pensize", names.view_name(*view))?;
            push_number(&mut line, i32::from(*size))?;
            Ok(line)
        }
        Command::Pen(view, at) => with_point(alloc, b"pen", names.view_name(*view), *at),
        Command::Origin(view, at) => with_point(alloc, b"origin", names.view_name(*view), *at),
        Command::Clip(view, clip) => with_clip(alloc, names.view_name(*view), clip),
        Command::Push(view) => with_name(alloc, b"push", names.view_name(*view)),
        Command::Pop(view) => with_name(alloc, b"pop", names.view_name(*view)),
        Command::CopyBits(view, source, target) => {
            let mut line = with_rect(alloc, b"copybits", names.view_name(*view), *source)?;
            push_point(&mut line, *target)?;
            Ok(line)
        }
        Command::Invalidate(view, rect) => {
            with_rect(alloc, b"invalidate", names.view_name(*view), *rect)
        }
        Command::Change(change) => change_line(alloc, *change, names),
        Command::EndUpdate => Ok(Vec::new(alloc)),
    }
}

fn change_line(alloc: Global, change: Change, names: &Names) -> Result<Vec<u8>, NoMemory>
    ensures { IfOk result (λ line. line.items ≡ change_line names.now change) }
{
    match change {
        Change::Show => alone(alloc, b"show"),
        Change::Hide => alone(alloc, b"hide"),
        Change::MoveTo(corner) => {
            let mut line = alone(alloc, b"moveto")?;
            push_point(&mut line, corner)?;
            Ok(line)
        }
        Change::MoveBy(right, down) => with_pair(alloc, b"moveby", right, down),
        Change::ResizeTo(width, height) => {
            with_pair(alloc, b"resizeto", i32::from(width), i32::from(height))
        }
        Change::Activate => alone(alloc, b"activate"),
        Change::Behind(window) => with_name(alloc, b"behind", names.window_name(window)),
        Change::Focus(None) => with_name(alloc, b"focus", b"none"),
        Change::Focus(Some(view)) => with_name(alloc, b"focus", names.view_name(view)),
        Change::Close => alone(alloc, b"close"),
    }
}

// ---- the front of a line

fn alone(alloc: Global, word: &[u8]) -> Result<Vec<u8>, NoMemory>
    ensures { IfOk result (λ line. line.items ≡ word.now) }
{
    Ok(Vec::from_slice(alloc, word)?)
}

fn with_name(alloc: Global, word: &[u8], name: &[u8]) -> Result<Vec<u8>, NoMemory>
    ensures { IfOk result (λ line. line.items ≡ word.now ++ spaced name.now) }
{
    let mut line = alone(alloc, word)?;
    push_word(&mut line, name)?;
    Ok(line)
}

fn with_pair(alloc: Global, word: &[u8], x: i32, y: i32) -> Result<Vec<u8>, NoMemory>
    ensures { IfOk result (λ line. line.items ≡ word.now ++ pair_words x y) }
{
    let mut line = alone(alloc, word)?;
    push_pair(&mut line, x, y)?;
    Ok(line)
}

fn with_point(alloc: Global, word: &[u8], name: &[u8], at: Point) -> Result<Vec<u8>, NoMemory>
    ensures { IfOk result (λ line. line.items ≡ word.now ++ spaced name.now ++ point_words at) }
{
    let mut line = with_name(alloc, word, name)?;
    push_point(&mut line, at)?;
    Ok(line)
}

fn with_rect(alloc: Global, word: &[u8], name: &[u8], rect: Rect) -> Result<Vec<u8>, NoMemory>
    ensures { IfOk result (λ line. line.items ≡ word.now ++ spaced name.now ++ rect_words rect) }
{
    let mut line = with_name(alloc, word, name)?;
    push_rect(&mut line, rect)?;
    Ok(line)
}

fn with_rect_and_pattern(
    alloc: Global,
    word: &[u8],
    name: &[u8],
    rect: Rect,
    pattern: Pattern,
) -> Result<Vec<u8>, NoMemory>
    ensures { IfOk result (λ line. line.items
        ≡ word.now ++ spaced name.now ++ rect_words rect ++ spaced (pattern_text pattern)) }
{
    let mut line = with_rect(alloc, word, name, rect)?;
    push_pattern(&mut line, pattern)?;
    Ok(line)
}

fn with_color(alloc: Global, word: &[u8], name: &[u8], color: Color) -> Result<Vec<u8>, NoMemory>
    ensures { IfOk result (λ line. line.items
        ≡ word.now ++ spaced name.now ++ spaced (color_text color)) }
{
    let mut line = with_name(alloc, word, name)?;
    push_color(&mut line, color)?;
    Ok(line)
}

fn with_clip(alloc: Global, name: &[u8], clip: &Option<Clip>) -> Result<Vec<u8>, NoMemory>
    ensures { IfOk result (λ line. line.items
        ≡ codes "clip" ++ spaced name.now ++ clip_words clip.now) }
{
    let mut line = with_name(alloc, b"clip", name)?;
    match clip {
        None => push_word(&mut line, b"none")?,
        Some(clip) => push_rects(&mut line, clip.rects())?,
    }
    Ok(line)
}
