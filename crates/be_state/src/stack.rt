ghost use Rattle.std.specs.Prelude.{◌≡◌, ◌↔◌, ◌≤◌, true, false, length, map, fold, slice_get};
ghost use Rattle.std.specs.Prelude.{IsErr, IsNone, Some, IfOk, IfSome, OnOk, OnErr};
ghost use Rattle.std.specs.Option.{option_map};
ghost use Rattle.std.specs.List.{list_all};
ghost use Rattle.be_state.specs.Clips.{shown_clip};
ghost use Rattle.be_state.specs.Stacks as stacks;
ghost use Rattle.be_state.specs.Stacks.{first_stack, base_of, allows, clip_has, from_oldest};
ghost use Rattle.be_state.specs.Stacks.{with_state, with_clip, can_push, pushed, popped};
ghost use Rattle.be_state.specs.Stacks.{origin_point};
ghost use Rattle.be_geom.specs.Places.{sum_of, IsNear};
ghost use Rattle.be_state.specs.Limits.{IsPenSize};

use crate::State;
use crate::clip::Placed;
use crate::fault::{StackEmpty, StackFull};
use crate::layer::Layer;
use be_geom::NoMemory;
use be_region::Region;
use std::alloc::Global;
use std::marker::Model;
use std::mem;

/// How many states are saved at most.
const MAX_SAVED: usize = 16;

/// The drawing states of a view: the one in force, and those that were saved.
#[derive(Debug, Drop)]
pub struct StateStack {
    top: Layer,
    /// The oldest first.
    saved: Vec<Layer>,
}

impl Model for StateStack {
    ghost use Rattle.std.specs.Prelude.{◌≤◌, length, reverse, vec_capacity};
    ghost use Rattle.be_state.specs.Stacks.{Stack};

    ghost Value = { Stack };

    ghost view = { λ s. record { top = s.top; saved = reverse s.saved.items } };

    ghost invariant = { λ s. (length s.saved.items ≤ 16) × (16 ≤ vec_capacity s.saved) };
}

impl StateStack {
    /// The state that every view draws with at first, and room for all that can be saved.
    pub fn new(alloc: Global) -> Result<StateStack, NoMemory>
        ensures { IfOk result (λ stack. stack ≡ first_stack) }
    {
        Ok(StateStack {
            top: Layer::first(),
            saved: Vec::with_capacity(alloc, MAX_SAVED)?,
        })
    }

    /// The state in force.
    pub fn top(&self) -> &State
        ensures state { result.now ≡ self.now.top.state }
        ensures pen { IsPenSize result.now.pen_size }
    {
        self.top.state()
    }

    /// How many states are saved.
    pub fn saved(&self) -> u32
        ensures number { result ≡ length self.now.saved }
        ensures few { result ≤ 16 }
    {
        self.saved.len() as u32
    }

    /// The clip of a state, if it has one. The saved ones are counted from 0 on, the oldest first,
    /// and the one in force comes last.
    pub fn clip(&self, state: u32) -> Option<Placed<'_>>
        requires { state ≤ length self.now.saved }
        ensures clip { (layer : stacks.Layer) → slice_get (from_oldest self.now) state ≡ Some layer
            → layer.clip ≡ option_map shown_clip result }
        ensures near { IfSome result (λ clip. IsNear 17 clip.right × IsNear 17 clip.down) }
    {
        match self.saved.get(state as usize) {
            Some(layer) => layer.clip(),
            None => self.top.clip(),
        }
    }

    /// How far right and how far down of the view's left top the drawing's (0, 0) lies.
    pub fn base(&self) -> (i32, i32)
        ensures across { result.0 ≡ (base_of self.now).x }
        ensures down { result.1 ≡ (base_of self.now).y }
        ensures near { IsNear 17 result.0 × IsNear 17 result.1 }
    {
        let (x, y) = sum_of_origins(&self.saved);
        let origin = self.top.state().origin;
        (x + i32::from(origin.x), y + i32::from(origin.y))
    }

    /// Whether every clip holds the pixel, which is given as the view counts.
    pub fn allows(&self, x: i32, y: i32) -> bool
        ensures { result ≡ allows self.now x y }
    {
        self.top.allows(x, y) && all_allow(&self.saved, x, y)
    }

    /// Puts another state in place of the one in force, whose clip stays.
    pub fn set(&mut self, state: State)
        requires { IsPenSize state.pen_size }
        ensures { self.new ≡ with_state self.old state }
    {
        self.top.set_state(state);
    }

    /// Gives the state in force a clip in place of its own, or none:
    /// `BView::ConstrainClippingRegion`. The region lies where drawing goes now, and stays there
    /// when an origin changes.
    pub fn set_clip(&mut self, clip: Option<Region>)
        ensures { self.new ≡ with_clip self.old clip }
    {
        let base = self.base();
        self.top.set_clip(clip, base);
    }

    /// Saves the state in force: `BView::PushState`. The next one has its origin at (0, 0) and no
    /// clip.
    pub fn push(&mut self) -> Result<(), StackFull>
        ensures full { IsErr result ↔ (can_push self.old ≡ false) }
        ensures ok { OnOk result (self.new ≡ pushed self.old) }
        ensures err { OnErr result (self.new ≡ self.old) }
    {
        if self.saved.len() >= MAX_SAVED {
            return Err(StackFull);
        }
        let next = self.top.next();
        let layer = mem::replace(&mut self.top, next);
        self.saved.push(layer).unwrap();
        Ok(())
    }

    /// Goes back to the state that was saved last: `BView::PopState`.
    pub fn pop(&mut self) -> Result<(), StackEmpty>
        ensures empty { IsErr result ↔ IsNone (popped self.old) }
        ensures ok { OnOk result (popped self.old ≡ Some self.new) }
        ensures err { OnErr result (self.new ≡ self.old) }
    {
        let Some(layer) = self.saved.pop() else {
            return Err(StackEmpty);
        };
        self.top = layer;
        Ok(())
    }
}

/// The origins of all layers together.
fn sum_of_origins(layers: &[Layer]) -> (i32, i32)
    requires { length layers.now ≤ 16 }
    ensures across { result.0
        ≡ (fold sum_of origin_point (map (λ l. l.state.origin) layers.now)).x }
    ensures down { result.1
        ≡ (fold sum_of origin_point (map (λ l. l.state.origin) layers.now)).y }
    ensures near { IsNear 16 result.0 × IsNear 16 result.1 }
{
    let mut x = 0;
    let mut y = 0;
    for layer in layers {
        let origin = layer.state().origin;
        x += i32::from(origin.x);
        y += i32::from(origin.y);
    }
    (x, y)
}

/// Whether the clips of all layers hold the pixel.
fn all_allow(layers: &[Layer], x: i32, y: i32) -> bool
    ensures { result ≡ list_all (λ l. clip_has l.clip x y) layers.now }
{
    for layer in layers {
        if !layer.allows(x, y) {
            return false;
        }
    }
    true
}
