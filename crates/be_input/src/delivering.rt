ghost use Rattle.std.specs.Prelude.{◌≡◌, ◌++◌, ◌==◌, None, option_map, option_and_then};
ghost use Rattle.std.specs.Prelude.{option_to_list, IfOk};
ghost use Rattle.std.specs.Int.RustNames.{bit_and};
ghost use Rattle.be_geom.specs.Numbers.{is_number};
ghost use Rattle.be_stack.specs.declared.window.Window.{Window};
ghost use Rattle.be_input.specs.Deliveries.{delivery, mouse_posts, is_same, key_post, pressed_on};
ghost use Rattle.be_input.specs.Deliveries.{delivered};
ghost use Rattle.be_input.specs.Seen.{mouse_message, seen_post, seen_delivery};

use crate::message::{Mouse, Transit, key_message, mouse_message};
use crate::pointing::Pointing;
use crate::under::{place_seen, under_pointer};
use crate::{Delivery, Event, Post};
use be_geom::{NoMemory, Point};
use be_message::Target;
use be_stack::{Stack, WindowFlags};
use bitflags::Flags;
use std::alloc::Global;

/// What comes of an event. It changes nothing: the activation, the posts and what is remembered are
/// for the caller.
#[tactic(auto, unfolding(crate::specs::Deliveries::delivered))]
pub fn deliver(
    alloc: Global,
    stack: &Stack,
    pointing: &Pointing,
    event: &Event,
) -> Result<Delivery, NoMemory>
    ensures { IfOk result (λ delivery. seen_delivery delivery
        ≡ delivered stack.now pointing.now event.now) }
{
    match *event {
        Event::Press(p) => press(alloc, stack, pointing, p),
        Event::Release(p) => release(alloc, stack, pointing, p),
        Event::Move(p) => move_to(alloc, stack, pointing, p),
        Event::Key(key) => press_key(alloc, stack, pointing, key),
    }
}

#[tactic(auto, unfolding(crate::specs::Deliveries::delivered))]
fn release(
    alloc: Global,
    stack: &Stack,
    pointing: &Pointing,
    p: Point,
) -> Result<Delivery, NoMemory>
    ensures { IfOk result (λ delivery. seen_delivery delivery
        ≡ delivered stack.now pointing.now (Event.Release p)) }
{
    let under = under_pointer(stack, pointing, p);
    let first = mouse_post(alloc, stack, pointing, Mouse::Up, p, under)?;
    Ok(only(pointing, first))
}

#[tactic(auto, unfolding(crate::specs::Deliveries::delivered))]
fn press_key(
    alloc: Global,
    stack: &Stack,
    pointing: &Pointing,
    key: i32,
) -> Result<Delivery, NoMemory>
    ensures { IfOk result (λ delivery. seen_delivery delivery
        ≡ delivered stack.now pointing.now (Event.Key key)) }
{
    let post = key_post(alloc, stack, pointing, key)?;
    Ok(only(pointing, post))
}

/// One message, or none, and nothing else.
#[tactic(auto, using(crate::proofs::PostLemmas::one_delivered))]
fn only(pointing: &Pointing, first: Option<Post>) -> Delivery
    ensures { seen_delivery result
        ≡ delivery None (option_to_list (option_map seen_post first)) pointing.now.under }
{
    Delivery {
        activate: None,
        first,
        second: None,
        under: pointing.under,
    }
}

/// A message about the mouse to a view, if there is one.
fn mouse_post(
    alloc: Global,
    stack: &Stack,
    pointing: &Pointing,
    mouse: Mouse,
    p: Point,
    under: Option<(u16, u16)>,
) -> Result<Option<Post>, NoMemory>
    ensures { IfOk result (λ post. option_to_list (option_map seen_post post)
        ≡ mouse_posts stack.now pointing.now.trees (mouse_message mouse) p under) }
{
    let Some(at) = under else {
        return Ok(None);
    };
    let Some(place) = place_seen(stack, pointing, p, at) else {
        return Ok(None);
    };
    Ok(Some(Post {
        window: at.0,
        target: Target::View(at.1),
        message: mouse_message(alloc, mouse, place)?,
    }))
}

#[tactic(auto, unfolding(crate::specs::Deliveries::delivered))]
fn press(alloc: Global, stack: &Stack, pointing: &Pointing, p: Point) -> Result<Delivery, NoMemory>
    ensures { IfOk result (λ delivery. seen_delivery delivery
        ≡ delivered stack.now pointing.now (Event.Press p)) }
{
    let Some(at) = under_pointer(stack, pointing, p) else {
        return Ok(only(pointing, None));
    };
    let Some(flags) = stack.flags(at.0) else {
        return Ok(only(pointing, None));
    };
    pressed_on(alloc, stack, pointing, p, at, flags)
}

/// A press on a view of a window with these flags.
fn pressed_on(
    alloc: Global,
    stack: &Stack,
    pointing: &Pointing,
    p: Point,
    at: (u16, u16),
    flags: WindowFlags,
) -> Result<Delivery, NoMemory>
    ensures { IfOk result (λ delivery. (window : Window) → window.flags ≡ flags
        → seen_delivery delivery ≡ pressed_on stack.now pointing.now p at window) }
{
    let active = is_active(stack, at.0);
    let avoids = has_flag(flags, WindowFlags::AVOID_FOCUS);
    let first = if active || has_flag(flags, WindowFlags::FIRST_CLICK) || avoids {
        mouse_post(alloc, stack, pointing, Mouse::Down, p, Some(at))?
    } else {
        None
    };
    Ok(Delivery {
        activate: if active || avoids { None } else { Some(at.0) },
        ..only(pointing, first)
    })
}

fn is_active(stack: &Stack, w: u16) -> bool
    ensures { result ≡ is_number w stack.now.active }
{
    match stack.active() {
        Some(active) => active == w,
        None => false,
    }
}

fn has_flag(flags: WindowFlags, flag: WindowFlags) -> bool
    ensures { result ≡ (bit_and flags.0 flag.0 == flag.0) }
{
    flags.contains(flag)
}

#[tactic(auto, unfolding(crate::specs::Deliveries::delivered))]
fn move_to(
    alloc: Global,
    stack: &Stack,
    pointing: &Pointing,
    p: Point,
) -> Result<Delivery, NoMemory>
    ensures { IfOk result (λ delivery. seen_delivery delivery
        ≡ delivered stack.now pointing.now (Event.Move p)) }
{
    let old = pointing.under;
    let new = under_pointer(stack, pointing, p);
    if is_same(old, new) {
        let inside = Mouse::Moved(Transit::Inside);
        let first = mouse_post(alloc, stack, pointing, inside, p, new)?;
        return Ok(two(first, None, new));
    }
    let exited = mouse_post(
        alloc,
        stack,
        pointing,
        Mouse::Moved(Transit::Exited),
        p,
        old,
    )?;
    let entered = mouse_post(
        alloc,
        stack,
        pointing,
        Mouse::Moved(Transit::Entered),
        p,
        new,
    )?;
    Ok(two(exited, entered, new))
}

/// Two messages, of which each may be missing; one alone is the first.
#[tactic(auto, using(crate::proofs::PostLemmas::two_delivered, crate::proofs::PostLemmas::other_delivered))]
fn two(one: Option<Post>, other: Option<Post>, under: Option<(u16, u16)>) -> Delivery
    ensures { seen_delivery result ≡ delivery None
        (option_to_list (option_map seen_post one) ++ option_to_list (option_map seen_post other))
        under }
{
    let (first, second) = match one {
        Some(one) => (Some(one), other),
        None => (other, None),
    };
    Delivery {
        activate: None,
        first,
        second,
        under,
    }
}

fn is_same(old: Option<(u16, u16)>, new: Option<(u16, u16)>) -> bool
    ensures { result ≡ is_same old new }
{
    match (old, new) {
        (Some(old), Some(new)) => old.0 == new.0 && old.1 == new.1,
        (None, None) => true,
        (Some(_), None) | (None, Some(_)) => false,
    }
}

fn key_post(
    alloc: Global,
    stack: &Stack,
    pointing: &Pointing,
    key: i32,
) -> Result<Option<Post>, NoMemory>
    ensures { IfOk result (λ post. option_map seen_post post
        ≡ option_and_then (key_post pointing.now key) stack.now.active) }
{
    let Some(w) = stack.active() else {
        return Ok(None);
    };
    let Some(focus) = pointing.focus.get(usize::from(w)) else {
        return Ok(None);
    };
    let target = match *focus {
        Some(view) => Target::View(view),
        None => Target::Window,
    };
    Ok(Some(Post {
        window: w,
        target,
        message: key_message(alloc, key)?,
    }))
}
