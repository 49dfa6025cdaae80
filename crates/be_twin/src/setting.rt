ghost use Rattle.std.specs.Prelude.{◌≡◌, ◌<◌, true, length, option_map, slice_get, Some, is_some};
ghost use Rattle.be_command.specs.Effects.{high_color, low_color, drawing_mode, pen_size};
ghost use Rattle.be_command.specs.Effects.{pen_place, origin, clipping};
ghost use Rattle.be_state.specs.Limits.{IsPenSize};
ghost use Rattle.be_state.specs.Stacks.{with_state, with_clip, pushed, popped, can_push};
ghost use Rattle.be_twin.specs.Deeds.{set_by, popped_or_same};
ghost use Rattle.be_twin.specs.Made.{IsRestacked, IsRecolored};

use be_color::{Color, Mode};
use be_command::Clip;
use be_geom::Point;
use be_pane::Pane;
use be_region::Region;
use be_state::State;

/// What a view draws with: a copy of the state in force.
pub(crate) fn state_of(pane: &Pane, view: u16) -> State
    requires { view < length pane.now.states.items }
    ensures state { option_map (λ s. s.top.state) (slice_get pane.now.states.items view)
        ≡ Some result }
    ensures pen { IsPenSize result.pen_size }
{
    *pane.states[usize::from(view)].top()
}

/// Puts another state in place of the one in force.
pub(crate) fn set_state(pane: &mut Pane, view: u16, state: State)
    requires there { view < length pane.old.states.items }
    requires pen { IsPenSize state.pen_size }
    ensures { IsRestacked view (λ s. with_state s state) pane.old pane.new }
{
    pane.states[usize::from(view)].set(state);
}

/// `BView::SetHighColor`.
pub(crate) fn set_high(pane: &mut Pane, view: u16, color: Color)
    requires { view < length pane.old.states.items }
    ensures { IsRestacked view (set_by (high_color color)) pane.old pane.new }
{
    let mut state = state_of(pane, view);
    state.high = color;
    set_state(pane, view, state);
}

/// `BView::SetLowColor`.
pub(crate) fn set_low(pane: &mut Pane, view: u16, color: Color)
    requires { view < length pane.old.states.items }
    ensures { IsRestacked view (set_by (low_color color)) pane.old pane.new }
{
    let mut state = state_of(pane, view);
    state.low = color;
    set_state(pane, view, state);
}

/// `BView::SetDrawingMode`.
pub(crate) fn set_mode(pane: &mut Pane, view: u16, mode: Mode)
    requires { view < length pane.old.states.items }
    ensures { IsRestacked view (set_by (drawing_mode mode)) pane.old pane.new }
{
    let mut state = state_of(pane, view);
    state.mode = mode;
    set_state(pane, view, state);
}

/// `BView::SetPenSize`.
pub(crate) fn set_pen_size(pane: &mut Pane, view: u16, size: u8)
    requires there { view < length pane.old.states.items }
    requires pen { IsPenSize size }
    ensures { IsRestacked view (set_by (pen_size size)) pane.old pane.new }
{
    let mut state = state_of(pane, view);
    state.pen_size = size;
    set_state(pane, view, state);
}

/// `BView::MovePenTo`.
pub(crate) fn set_pen(pane: &mut Pane, view: u16, at: Point)
    requires { view < length pane.old.states.items }
    ensures { IsRestacked view (set_by (pen_place at)) pane.old pane.new }
{
    let mut state = state_of(pane, view);
    state.pen = at;
    set_state(pane, view, state);
}

/// `BView::SetOrigin`.
pub(crate) fn set_origin(pane: &mut Pane, view: u16, at: Point)
    requires { view < length pane.old.states.items }
    ensures { IsRestacked view (set_by (origin at)) pane.old pane.new }
{
    let mut state = state_of(pane, view);
    state.origin = at;
    set_state(pane, view, state);
}

/// `BView::ConstrainClippingRegion`. Only the pixels of the rectangles are kept.
pub(crate) fn set_clip(pane: &mut Pane, view: u16, clip: Option<Clip>)
    requires { view < length pane.old.states.items }
    ensures { IsRestacked view (set_by (clipping clip)) pane.old pane.new }
{
    match clip {
        Some(clip) => set_region(pane, view, Some(clip.into_region())),
        None => set_region(pane, view, None),
    }
}

/// Puts another clip in place of the one in force, or none.
fn set_region(pane: &mut Pane, view: u16, clip: Option<Region>)
    requires { view < length pane.old.states.items }
    ensures { IsRestacked view (λ s. with_clip s clip) pane.old pane.new }
{
    pane.states[usize::from(view)].set_clip(clip);
}

/// `BView::PushState`, where there is room for one more.
pub(crate) fn save(pane: &mut Pane, view: u16)
    requires { option_map can_push (slice_get pane.old.states.items view) ≡ Some true }
    ensures { IsRestacked view pushed pane.old pane.new }
{
    pane.states[usize::from(view)].push().unwrap();
}

/// `BView::PopState`, where a state is saved.
pub(crate) fn restore(pane: &mut Pane, view: u16)
    requires { option_map (λ s. is_some (popped s)) (slice_get pane.old.states.items view)
        ≡ Some true }
    ensures { IsRestacked view (λ s. popped_or_same s (popped s)) pane.old pane.new }
{
    pane.states[usize::from(view)].pop().unwrap();
}

/// `BView::SetViewColor`. It shows where the view is exposed or invalidated later.
pub(crate) fn set_view_color(pane: &mut Pane, view: u16, color: Color)
    requires { view < length pane.old.colors.items }
    ensures { IsRecolored view color pane.old pane.new }
{
    pane.colors[usize::from(view)] = color;
}
