ghost use Rattle.std.specs.Prelude.{◌≡◌, true, IfSome, ℤ, OnOk};
ghost use Rattle.be_region.specs.Rules.{keeps};
ghost use Rattle.be_region.specs.Rows.{line_has, IsLine};
ghost use Rattle.be_region.specs.Spans.{spans_have, AreSpans};

use crate::merge::{intersect, subtract, unite};
use crate::rule::Rule;
use crate::span::{Span, Spans};
use be_geom::{NoMemory, Rect};

/// The spans of the columns that are kept of two lines, in place of those that were there.
pub(crate) fn keep_columns(
    spans: &mut Spans,
    one: &[Rect],
    other: &[Rect],
    rule: Rule,
) -> Result<(), NoMemory>
    requires one { IsLine one.now }
    requires other { IsLine other.now }
    ensures apart { OnOk result (AreSpans spans.new.items) }
    ensures columns { OnOk result ((x : ℤ) → spans_have spans.new.items x
        ≡ keeps rule (line_has one.now x) (line_has other.now x)) }
{
    match lone_line(one, other, rule) {
        Some(line) => copy_line(spans, line),
        None => match rule {
            Rule::Union => unite(spans, one, other),
            Rule::Difference => subtract(spans, one, other),
            Rule::Intersection => intersect(spans, one, other),
        },
    }
}

/// The line that has the columns that are kept, where one of the two has all columns of the other
/// in one rectangle, or the other has none.
fn lone_line<'a>(one: &'a [Rect], other: &'a [Rect], rule: Rule) -> Option<&'a [Rect]>
    requires one { IsLine one.now }
    requires other { IsLine other.now }
    ensures line { IfSome result (λ line. IsLine line.now) }
    ensures columns { IfSome result (λ line. (x : ℤ) → line_has line.now x
        ≡ keeps rule (line_has one.now x) (line_has other.now x)) }
{
    match rule {
        Rule::Union if covers(one, other) => Some(one),
        Rule::Union if covers(other, one) => Some(other),
        Rule::Difference if covers(other, one) => Some(&one[..0]),
        Rule::Difference if other.is_empty() => Some(one),
        Rule::Intersection if covers(one, other) => Some(other),
        Rule::Intersection if covers(other, one) => Some(one),
        _ => None,
    }
}

/// Whether the first line is one rectangle with all columns of the second, or the second has none.
fn covers(whole: &[Rect], line: &[Rect]) -> bool
    requires { IsLine line.now }
    ensures { result ≡ true
        → (x : ℤ) → line_has line.now x ≡ true → line_has whole.now x ≡ true }
{
    if line.is_empty() {
        return true;
    }
    let first = line[0];
    let last = line[line.len() - 1];
    match whole {
        [rect] => rect.left <= first.left && last.right <= rect.right,
        _ => false,
    }
}

/// The spans of a line, in place of those that were there.
fn copy_line(spans: &mut Spans, line: &[Rect]) -> Result<(), NoMemory>
    requires { IsLine line.now }
    ensures apart { OnOk result (AreSpans spans.new.items) }
    ensures columns { OnOk result ((x : ℤ) → spans_have spans.new.items x ≡ line_has line.now x) }
{
    spans.clear();
    for rect in line {
        spans.push(Span {
            left: rect.left,
            right: rect.right,
        })?;
    }
    Ok(())
}
