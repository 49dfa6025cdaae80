ghost use Rattle.std.specs.Prelude.{◌≡◌};
ghost use Rattle.std.specs.Option.{option_map};
ghost use Rattle.std.specs.Result.{result_map_both};
ghost use Rattle.be_command.specs.Kinds.{named};
ghost use Rattle.be_command.specs.Places.{judged};
ghost use Rattle.be_said.specs.Names.{handler_names, new_name};
ghost use Rattle.be_reader.specs.Kinds.{handler_named, list_named};
ghost use Rattle.be_said.specs.SoFar.{app_names, bitmap_names, view_names, window_names};

// What a word says that is a name, beside the names that were said so far, or what is wrong with
// it. None stands for a missing word.

use be_command::Reason;
use be_lex::is_name;
use be_line::judging;
use be_message::Target;
use be_said::SoFar;

pub(crate) fn new_bitmap<'a>(said: &SoFar, word: Option<&'a [u8]>) -> Result<&'a [u8], Reason>
    ensures { result_map_both (λ name. name.now) (λ reason. reason) result
        ≡ judged (new_name (bitmap_names said.now)) (option_map (λ w. w.now) word.entry) }
{
    let word = word.ok_or(Reason::Shape)?;
    judging::new_name(word, said.has_bitmap(word))
}

pub(crate) fn new_window<'a>(said: &SoFar, word: Option<&'a [u8]>) -> Result<&'a [u8], Reason>
    ensures { result_map_both (λ name. name.now) (λ reason. reason) result
        ≡ judged (new_name (window_names said.now)) (option_map (λ w. w.now) word.entry) }
{
    let word = word.ok_or(Reason::Shape)?;
    judging::new_name(word, said.has_window(word))
}

/// A view's or a plain handler's name in the window.
pub(crate) fn new_handler<'a>(
    said: &SoFar,
    window: Option<u16>,
    word: Option<&'a [u8]>,
) -> Result<&'a [u8], Reason>
    ensures { result_map_both (λ name. name.now) (λ reason. reason) result
        ≡ judged (new_name (handler_names said.now window)) (option_map (λ w. w.now) word.entry) }
{
    let word = word.ok_or(Reason::Shape)?;
    judging::new_name(word, said.has_handler(window, word))
}

pub(crate) fn new_app<'a>(said: &SoFar, word: Option<&'a [u8]>) -> Result<&'a [u8], Reason>
    ensures { result_map_both (λ name. name.now) (λ reason. reason) result
        ≡ judged (new_name (app_names said.now)) (option_map (λ w. w.now) word.entry) }
{
    let word = word.ok_or(Reason::Shape)?;
    judging::new_name(word, said.has_app(word))
}

pub(crate) fn window(said: &SoFar, word: Option<&[u8]>) -> Result<u16, Reason>
    ensures { result ≡ judged (named (window_names said.now)) (option_map (λ w. w.now) word.entry) }
{
    let word = word.ok_or(Reason::Shape)?;
    judging::named(word, said.window_named(word))
}

pub(crate) fn view(said: &SoFar, window: Option<u16>, word: Option<&[u8]>) -> Result<u16, Reason>
    ensures { result
        ≡ judged (named (view_names said.now window)) (option_map (λ w. w.now) word.entry) }
{
    let word = word.ok_or(Reason::Shape)?;
    judging::named(word, said.view_named(window, word))
}

pub(crate) fn app(said: &SoFar, word: Option<&[u8]>) -> Result<u16, Reason>
    ensures { result ≡ judged (named (app_names said.now)) (option_map (λ w. w.now) word.entry) }
{
    let word = word.ok_or(Reason::Shape)?;
    judging::named(word, said.app_named(word))
}

/// The window itself, a view or a plain handler.
pub(crate) fn handler(
    said: &SoFar,
    window: Option<u16>,
    word: Option<&[u8]>,
) -> Result<Target, Reason>
    ensures { result
        ≡ judged (handler_named said.now window) (option_map (λ w. w.now) word.entry) }
{
    let word = word.ok_or(Reason::Shape)?;
    handler_named(said, window, word)
}

/// The list of a handler, or the common one.
pub(crate) fn list(
    said: &SoFar,
    window: Option<u16>,
    word: Option<&[u8]>,
) -> Result<Option<Target>, Reason>
    ensures { result
        ≡ judged (list_named said.now window) (option_map (λ w. w.now) word.entry) }
{
    let word = word.ok_or(Reason::Shape)?;
    if word == b"common".as_slice() {
        return Ok(None);
    }
    Ok(Some(handler_named(said, window, word)?))
}

fn handler_named(said: &SoFar, window: Option<u16>, word: &[u8]) -> Result<Target, Reason>
    ensures { result ≡ handler_named said.now window word.now }
{
    if !is_name(word) {
        return Err(Reason::Shape);
    }
    if word == b"window".as_slice() {
        return Ok(Target::Window);
    }
    if let Some(view) = said.view_named(window, word) {
        return Ok(Target::View(view));
    }
    match said.plain_named(window, word) {
        Some(plain) => Ok(Target::Plain(plain)),
        None => Err(Reason::UnknownName),
    }
}
