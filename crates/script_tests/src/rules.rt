ghost use Rattle.std.specs.Prelude.{◌≡◌, true, IsTrue, None, slice_get};
ghost use Rattle.std.specs.List.{list_all, list_any};
ghost use Rattle.std.specs.Option.{IfSome};
ghost use Rattle.be_message.specs.Names.{is_name};
ghost use Rattle.be_message.specs.Views.{seen_value};
ghost use Rattle.be_actor.specs.Conditions.{are_kept, draft_of, has_two_parts, is_kept, is_place};
ghost use Rattle.be_actor.specs.Conditions.{keeps_fields, takes_current, HasCurrent, HasCurrentAt};
ghost use Rattle.be_actor.specs.DraftViews.{seen_word, seen_words};
ghost use Rattle.be_actor.specs.Limits.{all_go_together, go_together, is_spelt, is_word};

// What a program has to keep, asked while the tests run. Names and texts of one letter do for them.

use be_actor::{Draft, FieldWord, Instruction, Place, Program};
use be_message::Value;

pub(crate) fn is_place(program: &Program, place: Place) -> bool
    ensures { result ≡ is_place program.now place }
{
    let has_second = match program.steps.get(place.step as usize) {
        Some(at) => place.part == 1 && has_two_parts(at),
        None => false,
    };
    place.step as usize <= program.steps.len() && (place.part == 0 || has_second)
}

fn has_two_parts(at: &Instruction) -> bool
    ensures { result ≡ has_two_parts at.now }
{
    match at {
        Instruction::Send(..) | Instruction::Sync => true,
        Instruction::Note(_) | Instruction::Post(..) | Instruction::Reply(_) => false,
        Instruction::Forward(..) | Instruction::Lock(_) | Instruction::Unlock => false,
        Instruction::Flush | Instruction::Draw(_) => false,
    }
}

pub(crate) fn are_kept(steps: &[Instruction]) -> bool
    ensures { IsTrue result → are_kept steps.now ≡ true }
{
    match steps {
        [] => true,
        [at, rest @ ..] => is_kept(at) && are_kept(rest),
    }
}

fn is_kept(at: &Instruction) -> bool
    ensures { IsTrue result → is_kept (draft_of at.now) ≡ true }
{
    match at {
        Instruction::Post(_, _, draft) => keeps_fields(draft),
        Instruction::Send(_, _, draft) => keeps_fields(draft),
        Instruction::Reply(draft) => keeps_fields(draft),
        Instruction::Note(_) | Instruction::Forward(..) | Instruction::Lock(_) => true,
        Instruction::Unlock | Instruction::Flush | Instruction::Sync => true,
        Instruction::Draw(_) => true,
    }
}

fn keeps_fields(draft: &Draft) -> bool
    ensures { IsTrue result → keeps_fields draft.now ≡ true }
{
    draft.words.len() <= 255 && are_words(&draft.words) && all_go_together(&draft.words)
}

fn are_words(words: &[FieldWord]) -> bool
    ensures { IsTrue result → list_all (is_word true) (seen_words words.now) ≡ true }
{
    match words {
        [] => true,
        [word, rest @ ..] => is_word(word) && are_words(rest),
    }
}

fn is_word(word: &FieldWord) -> bool
    ensures { IsTrue result → is_word true (seen_word word.now) ≡ true }
{
    match word {
        FieldWord::Value(name, value) => is_name(name.as_slice()) && is_spelt(value),
        FieldWord::Current(name) => is_name(name.as_slice()),
        FieldWord::Copied(name) => is_name(name.as_slice()),
    }
}

#[tactic(auto, unfolding(be_message::specs::Names::is_name))]
fn is_name(name: &[u8]) -> bool
    ensures { IsTrue result → is_name name.now ≡ true }
{
    match name {
        [letter] => letter.is_ascii_lowercase(),
        _ => false,
    }
}

#[tactic(auto, unfolding(be_message::specs::Names::is_text))]
fn is_spelt(value: &Value) -> bool
    ensures { IsTrue result → is_spelt (seen_value value.now) ≡ true }
{
    match value {
        Value::Text(text) => match text.as_slice() {
            [letter] => letter.is_ascii_lowercase(),
            _ => false,
        },
        Value::Bool(_) | Value::Int(_) | Value::Point(_) | Value::Rect(_) => true,
        Value::Message(_) => false,
    }
}

fn all_go_together(words: &[FieldWord]) -> bool
    ensures { result ≡ all_go_together (seen_words words.now) }
{
    match words {
        [] => true,
        [word, rest @ ..] => goes_with_all(word, rest) && all_go_together(rest),
    }
}

fn goes_with_all(word: &FieldWord, words: &[FieldWord]) -> bool
    ensures { result ≡ list_all (go_together (seen_word word.now)) (seen_words words.now) }
{
    match words {
        [] => true,
        [other, rest @ ..] => go_together(word, other) && goes_with_all(word, rest),
    }
}

fn go_together(one: &FieldWord, other: &FieldWord) -> bool
    ensures { result ≡ go_together (seen_word one.now) (seen_word other.now) }
{
    match (one, other) {
        (FieldWord::Value(a, x), FieldWord::Value(b, y)) => {
            a.as_slice() != b.as_slice() || x.kind() == y.kind()
        }
        (FieldWord::Value(a, _), FieldWord::Current(b) | FieldWord::Copied(b)) => {
            a.as_slice() != b.as_slice()
        }
        (FieldWord::Current(a) | FieldWord::Copied(a), FieldWord::Value(b, _)) => {
            a.as_slice() != b.as_slice()
        }
        (FieldWord::Copied(a), FieldWord::Copied(b)) => a.as_slice() != b.as_slice(),
        (FieldWord::Current(_), FieldWord::Current(_) | FieldWord::Copied(_)) => false,
        (FieldWord::Copied(_), FieldWord::Current(_)) => false,
    }
}

/// Whether the instruction at a place needs no current message.
pub(crate) fn is_alone(program: &Program, place: Place) -> bool
    ensures { IsTrue result → HasCurrentAt (slice_get program.now place.step) None }
{
    match program.steps.get(place.step as usize) {
        Some(at) => needs_none(at),
        None => true,
    }
}

fn needs_none(at: &Instruction) -> bool
    ensures { IsTrue result → IfSome (draft_of at.now) (λ draft. HasCurrent draft.words None) }
{
    match at {
        Instruction::Post(_, _, draft) => !takes_current(&draft.words),
        Instruction::Send(_, _, draft) => !takes_current(&draft.words),
        Instruction::Reply(draft) => !takes_current(&draft.words),
        Instruction::Note(_) | Instruction::Forward(..) | Instruction::Lock(_) => true,
        Instruction::Unlock | Instruction::Flush | Instruction::Sync => true,
        Instruction::Draw(_) => true,
    }
}

fn takes_current(words: &[FieldWord]) -> bool
    ensures { result ≡ list_any takes_current (seen_words words.now) }
{
    match words {
        [] => false,
        [word, rest @ ..] => is_from_current(word) || takes_current(rest),
    }
}

fn is_from_current(word: &FieldWord) -> bool
    ensures { result ≡ takes_current (seen_word word.now) }
{
    match word {
        FieldWord::Value(..) => false,
        FieldWord::Current(_) | FieldWord::Copied(_) => true,
    }
}
