ghost use Rattle.std.specs.Prelude.{◌≡◌, ◌<◌, [], ◌∷◌, ◌++◌, All, length};
ghost use Rattle.be_region.specs.Regions.{IsNotEmpty};

use be_geom::Rect;
use std::marker::Model;

/// How many frames can be in front of a view: those of all others but the root.
const MOST: usize = 31;

/// What stands in a place that has no frame.
const NO_FRAME: Rect = Rect {
    left: 0,
    top: 0,
    right: 0,
    bottom: 0,
};

/// Frames on the screen, at most 31. It takes no memory.
#[derive(Drop)]
pub struct Fronts {
    frames: [Rect; MOST],
    count: usize,
}

impl Model for Fronts {
    ghost use Rattle.std.specs.Prelude.{◌≤◌, List, All, take};
    ghost use Rattle.be_geom.specs.declared.rect.Rect.{Rect};
    ghost use Rattle.be_region.specs.Regions.{IsNotEmpty};

    ghost Value = { List Rect };

    ghost view = { λ f. take f.count f.frames };

    ghost invariant = { λ f. (f.count ≤ 31) × All IsNotEmpty (take f.count f.frames) };
}

impl Fronts {
    /// None yet.
    pub fn new() -> Fronts
        ensures { result ≡ [] }
    {
        Fronts {
            frames: [NO_FRAME; MOST],
            count: 0,
        }
    }

    /// The frames, as they were added.
    pub fn frames(&self) -> &[Rect]
        ensures list { result.now ≡ self.now }
        ensures some { All IsNotEmpty result.now }
    {
        &self.frames[..self.count]
    }

    /// Lets go of all.
    pub(crate) fn clear(&mut self)
        ensures { self.new ≡ [] }
    {
        self.count = 0;
    }

    /// Adds one more.
    pub(crate) fn push(&mut self, frame: Rect)
        requires some { IsNotEmpty frame }
        requires room { length self.old < 31 }
        ensures { self.new ≡ self.old ++ frame ∷ [] }
    {
        self.frames[self.count] = frame;
        self.count += 1;
    }
}
