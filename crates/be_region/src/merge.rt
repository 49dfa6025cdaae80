ghost use Rattle.std.specs.Prelude.{◌≡◌, ℤ, pos, negsuc, true, false, ◌+◌, ◌<◌, ◌+ℤ◌, ◌≤ℤ◌, ◌<ℤ◌};
ghost use Rattle.std.specs.Prelude.{◌⊎◌, ◌||◌, ◌&&◌, not, [], length, int_le, IfNone, IfOk, IfSome};
ghost use Rattle.std.specs.Prelude.{OnOk};
ghost use Rattle.std.specs.Int.{int_max, int_min};
ghost use Rattle.be_geom.specs.Points.{between};
ghost use Rattle.be_region.specs.Rows.{line_has, IsLine, edge_of};
ghost use Rattle.be_region.specs.Spans.{spans_have, span_of, AreSpans, AreWithin};

use crate::span::{Span, Spans};
use be_geom::{NoMemory, Rect};

/// What stands for the first column of a line without columns.
const NO_COLUMN: i32 = 2147483647;

/// The columns of the rectangle of two lines that begins first, and what is left of both without
/// it.
#[derive(Clone, Copy)]
struct First<'a> {
    span: Span,
    one: &'a [Rect],
    other: &'a [Rect],
}

/// The spans of the columns of either line, in place of those that were there.
pub(crate) fn unite(spans: &mut Spans, one: &[Rect], other: &[Rect]) -> Result<(), NoMemory>
    requires one { IsLine one.now }
    requires other { IsLine other.now }
    ensures apart { OnOk result (AreSpans spans.new.items) }
    ensures columns { OnOk result ((x : ℤ) → spans_have spans.new.items x
        ≡ (line_has one.now x || line_has other.now x)) }
{
    spans.clear();
    let Some(mut rest) = first_of(one, other) else {
        return Ok(());
    };
    let mut last = rest.span;
    'rects: while let Some(next) = first_of(rest.one, rest.other) {
        last = grown(spans, last, next.span)?;
        rest = next;
    }
    spans.push(last)?;
    Ok(())
}

#[inline(always)]
fn first_of<'a>(one: &'a [Rect], other: &'a [Rect]) -> Option<First<'a>>
    requires one { IsLine one.now }
    requires other { IsLine other.now }
    ensures none { IfNone result ((one.now ≡ []) × (other.now ≡ [])) }
    ensures left { IfSome result (λ next. next.span.left
        ≡ int_min (edge_of false one.now) (edge_of false other.now)) }
    ensures full { IfSome result (λ next. next.span.left ≤ℤ next.span.right) }
    ensures lines { IfSome result (λ next. IsLine next.one.now × IsLine next.other.now) }
    ensures order { IfSome result (λ next. (next.span.left ≤ℤ edge_of false next.one.now)
        × (next.span.left ≤ℤ edge_of false next.other.now)) }
    ensures columns { IfSome result (λ next. (x : ℤ)
        → (line_has one.now x || line_has other.now x)
        ≡ (between next.span.left x next.span.right
        || (line_has next.one.now x || line_has next.other.now x))) }
    ensures fewer { IfSome result (λ next. length next.one.now + length next.other.now
        < length one.now + length other.now) }
{
    let Some((rect, one_rest)) = one.split_first() else {
        let Some((rect, other_rest)) = other.split_first() else {
            return None;
        };
        return Some(First {
            span: span_of(*rect),
            one,
            other: other_rest,
        });
    };
    let Some((other_rect, other_rest)) = other.split_first() else {
        return Some(First {
            span: span_of(*rect),
            one: one_rest,
            other,
        });
    };
    if other_rect.left < rect.left {
        return Some(First {
            span: span_of(*other_rect),
            one,
            other: other_rest,
        });
    }
    Some(First {
        span: span_of(*rect),
        one: one_rest,
        other,
    })
}

fn span_of(rect: Rect) -> Span
    ensures { result ≡ span_of rect }
{
    Span {
        left: rect.left,
        right: rect.right,
    }
}

/// The last span with one that doesn't begin left of it; where they don't touch, the first is done.
#[inline(always)]
fn grown(spans: &mut Spans, last: Span, more: Span) -> Result<Span, NoMemory>
    requires order { last.left ≤ℤ more.left }
    requires last_full { last.left ≤ℤ last.right }
    requires full { more.left ≤ℤ more.right }
    ensures full { IfOk result (λ next. next.left ≤ℤ next.right) }
    ensures left { IfOk result (λ next. next.left ≤ℤ more.left) }
    ensures apart { IfOk result (λ next. (low : ℤ) → AreWithin low spans.old.items last.left
        → AreWithin low spans.new.items next.left) }
    ensures columns { IfOk result (λ next. (x : ℤ)
        → (spans_have spans.new.items x || between next.left x next.right)
        ≡ ((spans_have spans.old.items x || between last.left x last.right)
        || between more.left x more.right)) }
{
    if i32::from(last.right) + 1 < i32::from(more.left) {
        spans.push(last)?;
        return Ok(more);
    }
    Ok(Span {
        left: last.left,
        right: last.right.max(more.right),
    })
}

/// The columns that the first rectangles of two lines have in common, which may be none, and what
/// is left of both without the one that ends first.
#[derive(Clone, Copy)]
struct Meeting<'a> {
    left: i16,
    right: i16,
    one: &'a [Rect],
    other: &'a [Rect],
}

/// The spans of the columns of both lines, in place of those that were there.
pub(crate) fn intersect(spans: &mut Spans, one: &[Rect], other: &[Rect]) -> Result<(), NoMemory>
    requires one { IsLine one.now }
    requires other { IsLine other.now }
    ensures apart { OnOk result (AreSpans spans.new.items) }
    ensures columns { OnOk result ((x : ℤ) → spans_have spans.new.items x
        ≡ (line_has one.now x && line_has other.now x)) }
{
    spans.clear();
    let mut one = one;
    let mut other = other;
    'rects: while let Some(next) = meeting_of(one, other) {
        push_some(spans, i32::from(next.left), i32::from(next.right))?;
        one = next.one;
        other = next.other;
    }
    Ok(())
}

#[inline(always)]
fn meeting_of<'a>(one: &'a [Rect], other: &'a [Rect]) -> Option<Meeting<'a>>
    requires one { IsLine one.now }
    requires other { IsLine other.now }
    ensures none { IfNone result ((one.now ≡ []) ⊎ (other.now ≡ [])) }
    ensures left { IfSome result (λ next. next.left
        ≡ int_max (edge_of false one.now) (edge_of false other.now)) }
    ensures lines { IfSome result (λ next. IsLine next.one.now × IsLine next.other.now) }
    ensures order { IfSome result (λ next.
        (next.left ≤ℤ int_max (edge_of false next.one.now) (edge_of false next.other.now))
        × ((next.right +ℤ pos 1)
        <ℤ int_max (edge_of false next.one.now) (edge_of false next.other.now))) }
    ensures columns { IfSome result (λ next. (x : ℤ)
        → (line_has one.now x && line_has other.now x)
        ≡ (between next.left x next.right
        || (line_has next.one.now x && line_has next.other.now x))) }
    ensures fewer { IfSome result (λ next. length next.one.now + length next.other.now
        < length one.now + length other.now) }
{
    let (rect, one_rest) = one.split_first()?;
    let (other_rect, other_rest) = other.split_first()?;
    let left = rect.left.max(other_rect.left);
    if rect.right < other_rect.right {
        return Some(Meeting {
            left,
            right: rect.right,
            one: one_rest,
            other,
        });
    }
    Some(Meeting {
        left,
        right: other_rect.right,
        one,
        other: other_rest,
    })
}

/// Adds a span, unless it is empty.
#[inline(always)]
fn push_some(spans: &mut Spans, left: i32, right: i32) -> Result<(), NoMemory>
    requires low { negsuc 32767 ≤ℤ left }
    requires high { right ≤ℤ pos 32767 }
    ensures apart { OnOk result ((low high : ℤ) → AreWithin low spans.old.items left
        → left ≤ℤ high → (right +ℤ pos 1) <ℤ high → AreWithin low spans.new.items high) }
    ensures columns { OnOk result ((x : ℤ) → spans_have spans.new.items x
        ≡ (spans_have spans.old.items x || between left x right)) }
{
    if left <= right {
        spans.push(Span {
            left: left as i16,
            right: right as i16,
        })?;
    }
    Ok(())
}

/// The first columns of a line that another line lacks, which may be none, and what is left of
/// both.
#[derive(Clone, Copy)]
struct CutOff<'a> {
    right: i32,
    one: &'a [Rect],
    /// The first column that is left of the first rectangle.
    left: i32,
    other: &'a [Rect],
}

/// The spans of the columns of the first line that the second lacks, in place of those that were
/// there.
pub(crate) fn subtract(spans: &mut Spans, one: &[Rect], other: &[Rect]) -> Result<(), NoMemory>
    requires one { IsLine one.now }
    requires other { IsLine other.now }
    ensures apart { OnOk result (AreSpans spans.new.items) }
    ensures columns { OnOk result ((x : ℤ) → spans_have spans.new.items x
        ≡ (line_has one.now x && not (line_has other.now x))) }
{
    spans.clear();
    let mut one = one;
    let mut other = other;
    let mut left = first_left(one);
    'rects: while let Some(next) = cut_off(one, left, other) {
        push_some(spans, left, next.right)?;
        one = next.one;
        left = next.left;
        other = next.other;
    }
    Ok(())
}

/// The first column of a line.
#[inline(always)]
fn first_left(line: &[Rect]) -> i32
    ensures column { result ≡ edge_of false line.now }
    ensures low { negsuc 32767 ≤ℤ result }
{
    match line.first() {
        Some(rect) => i32::from(rect.left),
        None => NO_COLUMN,
    }
}

/// Cuts the columns off that are before the first rectangle of the other line.
#[inline(always)]
fn cut_off<'a>(one: &'a [Rect], left: i32, other: &'a [Rect]) -> Option<CutOff<'a>>
    requires one { IsLine one.now }
    requires other { IsLine other.now }
    requires from { edge_of false one.now ≤ℤ left }
    requires to { left ≤ℤ edge_of true one.now }
    ensures none { IfNone result (one.now ≡ []) }
    ensures range { IfSome result (λ next. (next.right ≤ℤ pos 32767)
        × (negsuc 32767 ≤ℤ next.left)) }
    ensures lines { IfSome result (λ next. IsLine next.one.now × IsLine next.other.now) }
    ensures left { IfSome result (λ next. (edge_of false next.one.now ≤ℤ next.left)
        × (next.left ≤ℤ edge_of true next.one.now)) }
    ensures order { IfSome result (λ next. (left ≤ℤ next.left)
        × ((next.right +ℤ pos 1) <ℤ next.left)) }
    ensures columns { IfSome result (λ next. (x : ℤ)
        → ((int_le left x && line_has one.now x) && not (line_has other.now x))
        ≡ (between left x next.right || ((int_le next.left x && line_has next.one.now x)
        && not (line_has next.other.now x)))) }
    ensures fewer { IfSome result (λ next. length next.one.now + length next.other.now
        < length one.now + length other.now) }
{
    let (rect, one_rest) = one.split_first()?;
    let right = i32::from(rect.right);
    let Some((hole, other_rest)) = other.split_first() else {
        return Some(CutOff {
            right,
            one: one_rest,
            left: first_left(one_rest),
            other,
        });
    };
    if hole.right < rect.right {
        return Some(CutOff {
            right: i32::from(hole.left) - 1,
            one,
            left: left.max(i32::from(hole.right) + 1),
            other: other_rest,
        });
    }
    Some(CutOff {
        right: right.min(i32::from(hole.left) - 1),
        one: one_rest,
        left: first_left(one_rest),
        other,
    })
}
