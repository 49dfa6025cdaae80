ghost use Rattle.std.specs.Prelude.{◌≡◌};
ghost use Rattle.std.specs.Option.{option_map};
ghost use Rattle.be_message.specs.Sound.{kind_of};
ghost use Rattle.be_line.specs.Fields.{copied_word, datum_of, field_of, int_in, named_word};
ghost use Rattle.be_line.specs.Fields.{numbers_in, of_numbers, point_in, rect_in, text_in};
ghost use Rattle.be_line.specs.Fields.{truth_in};
ghost use Rattle.be_line.specs.Shaped.{bounded, pointed, seen_shaped, seen_word};
ghost use Rattle.be_line.specs.Words.{is_copied, is_current, name_of, sort_of};

// The words of FIELDS by their form: their numbers may be of any size.

use be_lex::{Number, cut_at, is_field_name};
use be_message::Kind;

/// A word of FIELDS as it stands.
#[derive(Drop)]
pub(crate) enum ShapedWord<'a> {
    /// A value under a name.
    Value(&'a [u8], Shaped<'a>),
    /// The current message under a name.
    Current(&'a [u8]),
    /// All values of a field of the current message.
    Copied(&'a [u8]),
}

/// A value of the right form.
#[derive(Drop)]
pub(crate) enum Shaped<'a> {
    Bool(bool),
    Int(Number<'a>),
    Text(&'a [u8]),
    Point(Number<'a>, Number<'a>),
    Rect(Number<'a>, Number<'a>, Number<'a>, Number<'a>),
}

impl<'a> ShapedWord<'a> {
    pub(crate) fn name(&self) -> &'a [u8]
        ensures { result.now ≡ name_of (seen_word self.now) }
    {
        match self {
            ShapedWord::Value(name, _) | ShapedWord::Current(name) | ShapedWord::Copied(name) => {
                *name
            }
        }
    }

    /// The type of its value, where it has one.
    pub(crate) fn sort(&self) -> Option<Kind>
        ensures { result ≡ sort_of (seen_word self.now) }
    {
        match self {
            ShapedWord::Value(_, value) => Some(value.kind()),
            ShapedWord::Current(_) | ShapedWord::Copied(_) => None,
        }
    }
}

impl ShapedWord<'_> {
    pub(crate) fn is_current(&self) -> bool
        ensures { result ≡ is_current (seen_word self.now) }
    {
        matches!(self, ShapedWord::Current(_))
    }

    pub(crate) fn is_copied(&self) -> bool
        ensures { result ≡ is_copied (seen_word self.now) }
    {
        matches!(self, ShapedWord::Copied(_))
    }
}

impl Shaped<'_> {
    pub(crate) fn kind(&self) -> Kind
        ensures { result ≡ kind_of (seen_shaped self.now) }
    {
        match self {
            Shaped::Bool(_) => Kind::Bool,
            Shaped::Int(_) => Kind::Int,
            Shaped::Text(_) => Kind::Text,
            Shaped::Point(..) => Kind::Point,
            Shaped::Rect(..) => Kind::Rect,
        }
    }
}

/// What a word is; the current message is there in the body of a handler alone.
#[tactic(auto, unfolding(crate::specs::Fields::field_of))]
pub(crate) fn shaped_word(word: &[u8], has_message: bool) -> Option<ShapedWord<'_>>
    ensures { option_map seen_word result ≡ field_of has_message word.now }
{
    if let Some(name) = word.strip_prefix(b"copy:".as_slice()) {
        return copied(name, has_message);
    }
    let (name, value) = cut_at(word, b'=')?;
    if is_field_name(name) {
        named(name, value, has_message)
    } else {
        None
    }
}

fn copied(name: &[u8], has_message: bool) -> Option<ShapedWord<'_>>
    ensures { option_map seen_word result ≡ copied_word has_message name.now }
{
    if has_message && is_field_name(name) {
        Some(ShapedWord::Copied(name))
    } else {
        None
    }
}

fn named<'a>(name: &'a [u8], value: &'a [u8], has_message: bool) -> Option<ShapedWord<'a>>
    ensures { option_map seen_word result ≡ named_word has_message name.now value.now }
{
    if value == b"cur".as_slice() {
        return if has_message {
            Some(ShapedWord::Current(name))
        } else {
            None
        };
    }
    Some(ShapedWord::Value(name, value_of(value)?))
}

/// A value by the letter in front and the colon behind it.
fn value_of(value: &[u8]) -> Option<Shaped<'_>>
    ensures { option_map seen_shaped result ≡ datum_of value.now }
{
    if let Some(rest) = value.strip_prefix(b"b:".as_slice()) {
        truth(rest)
    } else if let Some(rest) = value.strip_prefix(b"i:".as_slice()) {
        int(rest)
    } else if let Some(rest) = value.strip_prefix(b"s:".as_slice()) {
        text(rest)
    } else if let Some(rest) = value.strip_prefix(b"p:".as_slice()) {
        point(rest)
    } else if let Some(rest) = value.strip_prefix(b"r:".as_slice()) {
        rect(rest)
    } else {
        None
    }
}

fn truth(bytes: &[u8]) -> Option<Shaped<'_>>
    ensures { option_map seen_shaped result ≡ truth_in bytes.now }
{
    if bytes == b"true".as_slice() {
        Some(Shaped::Bool(true))
    } else if bytes == b"false".as_slice() {
        Some(Shaped::Bool(false))
    } else {
        None
    }
}

fn int(bytes: &[u8]) -> Option<Shaped<'_>>
    ensures { option_map seen_shaped result ≡ int_in bytes.now }
{
    Some(Shaped::Int(Number::of(bytes)?))
}

fn text(bytes: &[u8]) -> Option<Shaped<'_>>
    ensures { option_map seen_shaped result ≡ text_in bytes.now }
{
    if bytes.len() <= 1024 {
        Some(Shaped::Text(bytes))
    } else {
        None
    }
}

#[tactic(auto, using(crate::proofs::SplitLemmas::point_is_cut))]
fn point(bytes: &[u8]) -> Option<Shaped<'_>>
    ensures { option_map seen_shaped result ≡ of_numbers point_in bytes.now }
{
    let (x, y) = cut_at(bytes, b',')?;
    pointed(x, y)
}

fn pointed<'a>(x: &'a [u8], y: &'a [u8]) -> Option<Shaped<'a>>
    ensures { option_map seen_shaped result ≡ pointed x.now y.now }
{
    Some(Shaped::Point(Number::of(x)?, Number::of(y)?))
}

#[tactic(auto, using(crate::proofs::SplitLemmas::rect_is_cut))]
fn rect(bytes: &[u8]) -> Option<Shaped<'_>>
    ensures { option_map seen_shaped result ≡ of_numbers rect_in bytes.now }
{
    let (left, rest) = cut_at(bytes, b',')?;
    let (top, rest) = cut_at(rest, b',')?;
    let (right, bottom) = cut_at(rest, b',')?;
    bounded(left, top, right, bottom)
}

fn bounded<'a>(
    left: &'a [u8],
    top: &'a [u8],
    right: &'a [u8],
    bottom: &'a [u8],
) -> Option<Shaped<'a>>
    ensures { option_map seen_shaped result ≡ bounded left.now top.now right.now bottom.now }
{
    Some(Shaped::Rect(
        Number::of(left)?,
        Number::of(top)?,
        Number::of(right)?,
        Number::of(bottom)?,
    ))
}
