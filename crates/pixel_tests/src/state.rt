use be_color::{Color, Mode, Rgb, blend};
use be_geom::{NoMemory, Point, Rect};
use be_region::Region;
use be_state::{StackEmpty, StackFull, State, StateStack};
use std::alloc::Global;
use std::process::Abort;
use std::test::Fail;

const LAST: i32 = 2147483647;

const FIRST: i32 = -2147483648;

fn rect(left: i16, top: i16, right: i16, bottom: i16) -> Rect {
    Rect {
        left,
        top,
        right,
        bottom,
    }
}

fn set_origin(stack: &mut StateStack, x: i16, y: i16) {
    let state = *stack.top();
    let origin = Point { x, y };
    stack.set(State { origin, ..state });
}

fn clip_to(alloc: Global, stack: &mut StateStack, rect: Rect) -> Result<(), NoMemory> {
    stack.set_clip(Some(Region::from_rect(alloc, rect)?));
    Ok(())
}

const FIRST_STATE: State = State {
    high: Color::Solid(Rgb::BLACK),
    low: Color::Solid(Rgb::WHITE),
    mode: Mode::Copy,
    pen_size: 1,
    pen: Point { x: 0, y: 0 },
    origin: Point { x: 0, y: 0 },
};

#[test]
fn keeps_a_state(rt: HostRuntime) -> Result<(), Fail> {
    let mut stack = StateStack::new(rt.alloc())?;
    same!(rt; *stack.top(), FIRST_STATE);
    for pen_size in [1, 2, 32] {
        stack.set(State {
            pen_size,
            ..FIRST_STATE
        });
        same!(rt; stack.top().pen_size, pen_size);
    }
    Ok(())
}

/// A mode, and the parts of a high colour, of what was drawn on and of what comes of it.
const DRAWN: [(Mode, Option<[u8; 3]>, [u8; 3], [u8; 3]); 6] = [
    (
        Mode::Add,
        Some([200, 200, 200]),
        [100, 100, 100],
        [255, 255, 255],
    ),
    (Mode::Add, Some([200, 5, 2]), [100, 10, 40], [255, 15, 42]),
    (Mode::Subtract, Some([20, 20, 20]), [10, 10, 10], [0, 0, 0]),
    (
        Mode::Blend,
        Some([254, 254, 254]),
        [255, 255, 255],
        [254, 254, 254],
    ),
    (
        Mode::Invert,
        Some([200, 200, 200]),
        [18, 52, 86],
        [237, 203, 169],
    ),
    (Mode::Copy, None, [18, 52, 86], [18, 52, 86]),
];

fn rgb_of(parts: [u8; 3]) -> Rgb {
    let [red, green, blue] = parts;
    Rgb { red, green, blue }
}

fn color_of(parts: Option<[u8; 3]>) -> Color {
    match parts {
        Some(parts) => Color::Solid(rgb_of(parts)),
        None => Color::Clear,
    }
}

#[test]
fn draws_in_a_state(rt: HostRuntime) -> Result<(), Fail> {
    let mut stack = StateStack::new(rt.alloc())?;
    for (mode, high, old, new) in &DRAWN {
        stack.set(State {
            mode: *mode,
            high: color_of(*high),
            ..FIRST_STATE
        });
        let top = *stack.top();
        let drawn = blend(top.mode, top.high, rgb_of(*old), top.high, top.low);
        same!(rt; drawn, rgb_of(*new), (*mode, *high));
    }
    Ok(())
}

/// Saves sixteen states, each with a greater pen and moved by (1, -2).
fn assert_saved(rt: &impl Abort, stack: &mut StateStack) {
    for count in 0..16u8 {
        same!(rt; stack.saved(), u32::from(count));
        let state = *stack.top();
        let pen_size = count + 1;
        stack.set(State { pen_size, ..state });
        set_origin(stack, 1, -2);
        let pushed = stack.push();
        let top = *stack.top();
        let due = (Ok(()), pen_size, Point { x: 0, y: 0 });
        same!(rt; (pushed, top.pen_size, top.origin), due, count);
    }
    same!(rt; stack.push(), Err(StackFull));
    same!(rt; stack.saved(), 16);
}

#[test]
fn saves_sixteen_states(rt: HostRuntime) -> Result<(), Fail> {
    let mut stack = StateStack::new(rt.alloc())?;
    same!(rt; stack.pop(), Err(StackEmpty));
    assert_saved(&rt, &mut stack);
    for count in 0..16u8 {
        same!(rt; stack.pop(), Ok(()), count);
        let base = (16 - i32::from(count), 2 * i32::from(count) - 32);
        same!(rt; stack.base(), base, count);
        let top = *stack.top();
        let due = (16 - count, Point { x: 1, y: -2 });
        same!(rt; (top.pen_size, top.origin), due, count);
    }
    same!(rt; stack.pop(), Err(StackEmpty));
    Ok(())
}

/// Pixels, each with whether both clips allow it, and whether the first alone does.
const CLIPPED: [(i32, i32, bool, bool); 9] = [
    (4, -3, false, false),
    (5, -3, true, true),
    (6, -3, true, true),
    (7, -3, true, true),
    (8, -3, false, false),
    (5, -2, false, true),
    (7, -2, false, true),
    (5, -4, false, false),
    (0, 0, false, false),
];

/// A clip of three columns and two rows, moved by (5, -3).
fn one_clip(alloc: Global) -> Result<StateStack, NoMemory> {
    let mut stack = StateStack::new(alloc)?;
    set_origin(&mut stack, 5, -3);
    clip_to(alloc, &mut stack, rect(0, 0, 2, 1))?;
    Ok(stack)
}

/// The same, saved, and a clip of one row in the state that is in force.
fn two_clips(alloc: Global) -> Result<StateStack, Fail> {
    let mut stack = one_clip(alloc)?;
    set_origin(&mut stack, 100, 100);
    stack.push()?;
    set_origin(&mut stack, -94, -103);
    clip_to(alloc, &mut stack, rect(-1, 0, 9, 0))?;
    set_origin(&mut stack, 0, 0);
    Ok(stack)
}

#[test]
fn keeps_a_clip_where_it_was(rt: HostRuntime) -> Result<(), Fail> {
    let stack = two_clips(rt.alloc())?;
    let outer = one_clip(rt.alloc())?;
    for (x, y, both, one) in &CLIPPED {
        let found = (stack.allows(*x, *y), outer.allows(*x, *y));
        same!(rt; found, (*both, *one), (*x, *y));
    }
    Ok(())
}

#[test]
fn takes_a_clip_away(rt: HostRuntime) -> Result<(), Fail> {
    let mut stack = two_clips(rt.alloc())?;
    stack.set_clip(None);
    same!(rt; (stack.allows(5, -2), stack.allows(5, -4)), (true, false));
    stack.pop()?;
    stack.set_clip(Some(Region::empty(rt.alloc())));
    same!(rt; (stack.allows(5, -3), stack.allows(FIRST, 0)), (false, false));
    stack.set_clip(None);
    same!(rt; (stack.allows(5, -3), stack.allows(FIRST, 0)), (true, true));
    Ok(())
}

const PAST: [(i32, i32, bool); 11] = [
    (FIRST, -589824, false),
    (589804, -589824, false),
    (589805, -589824, true),
    (589806, -589823, true),
    (589807, -589823, false),
    (LAST, -589823, false),
    (589805, -589825, false),
    (589805, -589822, false),
    (32766, -32768, false),
    (589805, FIRST, false),
    (589805, LAST, false),
];

#[test]
fn goes_past_the_range(rt: HostRuntime) -> Result<(), Fail> {
    let mut stack = StateStack::new(rt.alloc())?;
    for _ in 0..16 {
        set_origin(&mut stack, 32767, -32768);
        stack.push()?;
    }
    set_origin(&mut stack, 32767, -32768);
    same!(rt; stack.base(), (557039, -557056));
    clip_to(rt.alloc(), &mut stack, rect(32766, -32768, 32767, -32767))?;
    for (x, y, allowed) in &PAST {
        same!(rt; stack.allows(*x, *y), *allowed, (*x, *y));
    }
    Ok(())
}

const THROUGH: [(i32, i32, bool); 10] = [
    (-2, 0, false),
    (2, 0, false),
    (4, 0, false),
    (6, 0, true),
    (7, 0, true),
    (8, 0, false),
    (-2, 1, false),
    (4, 1, true),
    (12, 1, false),
    (0, 2, false),
];

#[test]
fn asks_all_clips(rt: HostRuntime) -> Result<(), Fail> {
    let mut stack = StateStack::new(rt.alloc())?;
    let mut region = Region::from_rect(rt.alloc(), rect(0, 0, 9, 1))?;
    region.exclude(&Region::from_rect(rt.alloc(), rect(3, 0, 5, 0))?)?;
    stack.set_clip(Some(region));
    stack.push()?;
    set_origin(&mut stack, 4, 0);
    clip_to(rt.alloc(), &mut stack, rect(0, 0, 3, 1))?;
    for (x, y, allowed) in &THROUGH {
        same!(rt; stack.allows(*x, *y), *allowed, (*x, *y));
    }
    Ok(())
}
