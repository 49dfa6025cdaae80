ghost use Rattle.std.specs.Prelude.{◌≡◌, map, IfSome};
ghost use Rattle.std.specs.Option.{option_map};
ghost use Rattle.be_geom.specs.Rects.{moved_rect};
ghost use Rattle.be_state.specs.Stacks.{clip_has, next_layer, first_stack};
ghost use Rattle.be_state.specs.Clips.{shown_clip};
ghost use Rattle.be_state.specs.Limits.{IsPenSize};
ghost use Rattle.be_geom.specs.Places.{IsNear};

use crate::State;
use crate::clip::{Clip, Placed};
use be_color::{Color, Mode, Rgb};
use be_geom::Point;
use be_region::Region;
use std::marker::Model;

const ORIGIN: Point = Point { x: 0, y: 0 };

/// A state, and its clip if it has one.
#[derive(Debug, Drop)]
pub(crate) struct Layer {
    state: State,
    clip: Option<Clip>,
}

impl Model for Layer {
    ghost use Rattle.be_state.specs.Stacks as stacks;
    ghost use Rattle.be_state.specs.Limits.{IsPenSize};

    ghost Value = { stacks.Layer };

    ghost view = { λ l. record { state = l.state; clip = l.clip } };

    ghost invariant = { λ l. IsPenSize l.state.pen_size };
}

impl Layer {
    /// How every view draws at first, without a clip.
    pub(crate) fn first() -> Layer
        ensures { result ≡ first_stack.top }
    {
        Layer {
            state: State {
                high: Color::Solid(Rgb::BLACK),
                low: Color::Solid(Rgb::WHITE),
                mode: Mode::Copy,
                pen_size: 1,
                pen: ORIGIN,
                origin: ORIGIN,
            },
            clip: None,
        }
    }

    /// What is in force once this layer is saved.
    pub(crate) fn next(&self) -> Layer
        ensures { result ≡ next_layer self.now }
    {
        let mut state = self.state;
        state.origin = ORIGIN;
        Layer { state, clip: None }
    }

    pub(crate) fn state(&self) -> &State
        ensures state { result.now ≡ self.now.state }
        ensures pen { IsPenSize result.now.pen_size }
    {
        &self.state
    }

    pub(crate) fn set_state(&mut self, state: State)
        requires { IsPenSize state.pen_size }
        ensures { self.new ≡ record { state = state; clip = self.old.clip } }
    {
        self.state = state;
    }

    /// The clip, if there is one.
    pub(crate) fn clip(&self) -> Option<Placed<'_>>
        ensures clip { self.now.clip ≡ option_map shown_clip result }
        ensures near { IfSome result (λ clip. IsNear 17 clip.right × IsNear 17 clip.down) }
    {
        match &self.clip {
            Some(clip) => Some(clip.placed()),
            None => None,
        }
    }

    /// Takes another clip, which lies so far right and so far down.
    pub(crate) fn set_clip(&mut self, clip: Option<Region>, place: (i32, i32))
        requires across { IsNear 17 place.0 }
        requires down { IsNear 17 place.1 }
        ensures state { self.new.state ≡ self.old.state }
        ensures clip { self.new.clip ≡ option_map (map (λ r. moved_rect r place.0 place.1)) clip }
    {
        self.clip = match clip {
            Some(region) => Some(Clip::new(region, place)),
            None => None,
        };
    }

    /// Whether the clip, if there is one, holds the pixel.
    pub(crate) fn allows(&self, x: i32, y: i32) -> bool
        ensures { result ≡ clip_has self.now.clip x y }
    {
        match &self.clip {
            Some(clip) => clip.has(x, y),
            None => true,
        }
    }
}
