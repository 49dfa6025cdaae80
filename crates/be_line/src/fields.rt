ghost use Rattle.std.specs.Prelude.{◌≡◌, ◌&&◌, [], ℤ, negsuc, pos, false, Some, None, Ok, Option};
ghost use Rattle.std.specs.Prelude.{List, IfOk, OnOk, if◌then◌else◌};
ghost use Rattle.std.specs.Option.{option_map};
ghost use Rattle.std.specs.Result.{result_map_both};
ghost use Rattle.be_actor.specs.Drafts.{Word};
ghost use Rattle.be_actor.specs.DraftViews as views;
ghost use Rattle.be_geom.specs.Points.{in_range};
ghost use Rattle.be_lex.specs.Words.{words_of};
ghost use Rattle.be_message.specs.Views.{seen_value};
ghost use Rattle.be_line.specs.Fields.{fields_said, is_datum_in_range, is_in_range};
ghost use Rattle.be_line.specs.Shaped.{seen_shaped, seen_word};
ghost use Rattle.be_line.specs.Standing.{IsGiven, IsPushed};
ghost use Rattle.be_line.specs.Words.{ended, next};

use crate::shaped::{Shaped, ShapedWord, shaped_word};
use crate::standing::Standing;
use be_actor::FieldWord;
use be_command::Reason;
use be_geom::{NoMemory, Point, Rect};
use be_lex::{Number, Words};
use be_message::{Text, Value};
use std::alloc::Global;

/// The words of FIELDS so far, and what was wrong with them.
#[derive(Drop)]
pub(crate) struct GivenFields<'a> {
    standing: Standing<'a>,
    fields: Vec<FieldWord>,
    /// Each has its form, and all go together.
    is_formed: bool,
    is_in_range: bool,
}

/// Reads all words that are left as FIELDS. It takes memory for them, and for their names.
pub fn read_fields<'a>(
    alloc: Global,
    words: &mut Words<'a>,
    has_message: bool,
) -> Result<Result<Vec<FieldWord>, Reason>, NoMemory>
    ensures said { IfOk result (λ read. result_map_both (λ fields. views.seen_words fields.items)
        (λ reason. reason) read ≡ fields_said has_message (words_of words.old)) }
    ensures none_left { OnOk result (words_of words.new ≡ []) }
{
    let mut given = GivenFields::nothing(alloc);
    while let Some(word) = words.next() {
        given.add(alloc, shaped_word(word, has_message))?;
    }
    Ok(given.finish())
}

impl<'a> GivenFields<'a> {
    fn nothing(alloc: Global) -> GivenFields<'a>
        ensures { IsGiven (Some []) result }
    {
        GivenFields {
            standing: Standing::nothing(alloc),
            fields: Vec::new(alloc),
            is_formed: true,
            is_in_range: true,
        }
    }

    /// With one word more. None stands for a word without a form.
    fn add(&mut self, alloc: Global, word: Option<ShapedWord<'a>>) -> Result<(), NoMemory>
        ensures { OnOk result ((state : Option (List Word)) → IsGiven state self.old
            → IsGiven (next state (option_map seen_word word.entry)) self.new) }
    {
        let Some(word) = word else {
            self.is_formed = false;
            return Ok(());
        };
        if !self.is_formed {
            return Ok(());
        }
        let goes = self.standing.take(&word)?;
        if !goes {
            self.is_formed = false;
            return Ok(());
        }
        self.push(alloc, word)
    }

    /// With one word more among those of the draft.
    fn push(&mut self, alloc: Global, word: ShapedWord<'a>) -> Result<(), NoMemory>
        ensures { OnOk result (IsPushed (seen_word word.entry) self.old self.new) }
    {
        match field_of(alloc, word)? {
            Some(field) => self.fields.push(field)?,
            None => self.is_in_range = false,
        }
        Ok(())
    }

    fn finish(self) -> Result<Vec<FieldWord>, Reason>
        ensures { (state : Option (List Word)) → IsGiven state self.entry
            → result_map_both (λ fields. views.seen_words fields.items) (λ reason. reason) result
            ≡ ended state }
    {
        if !self.is_formed {
            Err(Reason::Shape)
        } else if !self.is_in_range {
            Err(Reason::Range)
        } else {
            Ok(self.fields)
        }
    }
}

/// The word of a draft. None where a number is out of its range.
fn field_of(alloc: Global, word: ShapedWord<'_>) -> Result<Option<FieldWord>, NoMemory>
    ensures { IfOk result (λ field. option_map views.seen_word field
        ≡ (if is_in_range (seen_word word.entry) then Some (seen_word word.entry) else None)) }
{
    match word {
        ShapedWord::Value(name, shaped) => match value_of(alloc, shaped)? {
            Some(value) => Ok(Some(FieldWord::Value(Text::new(alloc, name)?, value))),
            None => Ok(None),
        },
        ShapedWord::Current(name) => Ok(Some(FieldWord::Current(Text::new(alloc, name)?))),
        ShapedWord::Copied(name) => Ok(Some(FieldWord::Copied(Text::new(alloc, name)?))),
    }
}

fn value_of(alloc: Global, shaped: Shaped<'_>) -> Result<Option<Value>, NoMemory>
    ensures { IfOk result (λ value. option_map seen_value value
        ≡ (if is_datum_in_range (seen_shaped shaped.entry) then Some (seen_shaped shaped.entry)
        else None)) }
{
    Ok(match shaped {
        Shaped::Bool(truth) => Some(Value::Bool(truth)),
        Shaped::Int(number) => number.between(i32::MIN, i32::MAX).map(Value::Int),
        Shaped::Text(text) => Some(Value::Text(Text::new(alloc, text)?)),
        Shaped::Point(x, y) => point_of(&x, &y).map(Value::Point),
        Shaped::Rect(left, top, right, bottom) => {
            rect_of(&left, &top, &right, &bottom).map(Value::Rect)
        }
    })
}

fn point_of(x: &Number<'_>, y: &Number<'_>) -> Option<Point>
    ensures { result ≡ (if in_range x.now && in_range y.now
        then Some (record { x = x.now; y = y.now }) else None) }
{
    Some(Point {
        x: x.coordinate()?,
        y: y.coordinate()?,
    })
}

fn rect_of(
    left: &Number<'_>,
    top: &Number<'_>,
    right: &Number<'_>,
    bottom: &Number<'_>,
) -> Option<Rect>
    ensures { result ≡ (if in_range left.now && in_range top.now && in_range right.now
        && in_range bottom.now
        then Some (record {
          left = left.now;
          top = top.now;
          right = right.now;
          bottom = bottom.now;
        }) else None) }
{
    Some(Rect {
        left: left.coordinate()?,
        top: top.coordinate()?,
        right: right.coordinate()?,
        bottom: bottom.coordinate()?,
    })
}
