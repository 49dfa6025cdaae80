ghost use Rattle.std.specs.Prelude.{◌≡◌, ◌<◌, ℤ, IsSome, IsTrue, Ok, Option, Some, length, slice_get};
ghost use Rattle.std.specs.Prelude.{slice_set};
ghost use Rattle.be_region.specs.Regions.{SamePixels};
ghost use Rattle.be_stack.specs.Limits.{is_within_limits};
ghost use Rattle.be_stack.specs.Windows as windows;
ghost use Rattle.be_desk.specs.Carrying.{IsCarriedOver, IsFollowed};
ghost use Rattle.be_desk.specs.Changes.{desk_after, desk_with};
ghost use Rattle.be_desk.specs.Desks.{desk_of, IsPaired, IsTaken};
ghost use Rattle.be_desk.specs.Plans.{AreForPixels, CarriesOver, IsDeskPlan, renewed_spans};
ghost use Rattle.be_desk.specs.Shifts.{newest, shifted};
ghost use Rattle.be_span.specs.Spans.{cell_in};
ghost use Rattle.be_desk.specs.declared.planned.Renewed.{Renewed};

use crate::altered::has_same_pixels;
use crate::desk::Desk;
use crate::planned::{Plan, Renewed};
use crate::shift::Shift;
use be_geom::{Change, Point};
use be_input::Pointing;
use be_pane::Pane;
use be_span::SpanBuf;
use be_stack::Stack;
use be_views::ViewTree;

/// Carries a planned change out on a pane, with the spans of this number. It takes no memory and
/// can't be refused. Where the pane's pixels stay or go with the window, it costs what is newly
/// exposed and given up, and the rectangles of the regions; else what the plan has made takes the
/// place of what was there.
pub fn carry_out_pane(plan: &mut Plan, number: usize, pane: &mut Pane)
    requires there { number < length plan.old.spans }
    requires window { pane.old.window < length plan.old.windows.windows }
    requires within_limits { IsTrue (is_within_limits plan.old.change) }
    ensures carried { (these : Option Renewed) → slice_get plan.old.spans number ≡ Some these
        → CarriesOver plan.old these pane.old pane.new }
    ensures plan { (other : Option Renewed)
        × (plan.new ≡ record plan.old { spans = slice_set plan.old.spans number other }) }
{
    let renewed = plan.spans[number].take();
    carry_over(pane, renewed, &plan.stack, plan.window, plan.change);
}

/// Carries a planned change out on the desk, once it is carried out on each pane. It takes no
/// memory either.
pub fn carry_out_desk(desk: &mut Desk, plan: Plan)
    requires { IsDeskPlan plan (desk_of desk.old) }
    ensures desk { desk_after (desk_of desk.old) plan.window plan.change ≡ Ok (desk_of desk.new) }
    ensures paired { IsPaired (desk_of desk.new) }
{
    let Plan {
        window,
        change,
        stack,
        spans: _spans,
    } = plan;
    desk.stack = stack;
    point(&mut desk.pointing, window, change);
}

/// Changes the views of a window that is resized, or the view that has the focus.
fn point(pointing: &mut Pointing, w: u16, change: Change)
    requires there { w < length pointing.old.trees }
    requires within_limits { IsTrue (is_within_limits change) }
    requires taken { (s : windows.Windows)
        → IsTaken (desk_with record { windows = s; pointing = pointing.old } w s change) }
    ensures { (s t : windows.Windows)
        → desk_with record { windows = s; pointing = pointing.old } w t change
        ≡ Ok record { windows = t; pointing = pointing.new } }
{
    match change {
        Change::ResizeTo(width, height) => {
            let _refused = pointing.resize(w, width, height);
        }
        Change::Focus(view) => pointing.set_focus(w, view),
        Change::Show
        | Change::Hide
        | Change::MoveTo(_)
        | Change::MoveBy(_, _)
        | Change::Activate
        | Change::Behind(_)
        | Change::Close => {}
    }
}

/// Gives a pane its new pixels, if it gets some, and puts it where its window is. Its views follow
/// where it is window `w` and is resized.
fn carry_over(pane: &mut Pane, renewed: Option<Renewed>, stack: &Stack, w: u16, change: Change)
    requires there { pane.old.window < length stack.now.windows }
    requires within_limits { IsTrue (is_within_limits change) }
    ensures { IsCarriedOver renewed stack.now w change pane.old pane.new }
{
    if let Some(renewed) = renewed {
        renew(&mut pane.spans, renewed);
    }
    let frame = stack.frame(pane.window).unwrap();
    pane.place = Point {
        x: frame.left,
        y: frame.top,
    };
    if pane.window == w {
        follow(&mut pane.tree, change);
    }
}

/// Gives a window its new pixels.
fn renew(spans: &mut SpanBuf, renewed: Renewed)
    ensures { AreForPixels renewed spans.old.rects → spans.new ≡ renewed_spans renewed spans.old }
{
    match renewed {
        Renewed::Whole(whole) => *spans = whole,
        Renewed::InPlace(shift) => retake(spans, shift),
    }
}

/// The pixels go their way, and those that are newly exposed get their cells. A buffer that has
/// other pixels than those for which this was made stays as it is.
fn retake(spans: &mut SpanBuf, shift: Shift)
    ensures { SamePixels shift.from spans.old.rects
        → spans.new ≡ shifted shift.dx shift.dy shift.next shift.fresh.items spans.old }
{
    let Shift {
        dx,
        dy,
        from,
        next,
        given,
        fresh,
    } = shift;
    if !has_same_pixels(&from, spans.region()) {
        return;
    }
    spans.retake(dx, dy, next, &given);
    spans.whole();
    lay_parts(spans, &fresh);
    spans.whole();
}

/// Gives each pixel the cell of the last part that has it.
fn lay_parts(spans: &mut SpanBuf, parts: &[SpanBuf])
    ensures region { spans.new.rects ≡ spans.old.rects }
    ensures cells { (x y : ℤ) → IsSome (cell_in spans.old x y)
        → cell_in spans.new x y ≡ newest parts.now x y (cell_in spans.old x y) }
{
    for part in parts {
        spans.lay(part, 0, 0);
    }
}

/// The views follow their window's new size.
fn follow(tree: &mut ViewTree, change: Change)
    requires { IsTrue (is_within_limits change) }
    ensures { IsFollowed change tree.old tree.new }
{
    match change {
        Change::ResizeTo(width, height) => {
            let _refused = tree.resize(width, height);
        }
        Change::Show
        | Change::Hide
        | Change::MoveTo(_)
        | Change::MoveBy(_, _)
        | Change::Activate
        | Change::Behind(_)
        | Change::Focus(_)
        | Change::Close => {}
    }
}
