ghost use Rattle.std.specs.Prelude.{◌≡◌, ◌<◌, ◌≤ℤ◌, ◌↔◌, pos, None, Some, length, slice_get};
ghost use Rattle.std.specs.Prelude.{slice_set, replicate, IfOk, OnOk, OnErr, IsErr};
ghost use Rattle.std.specs.Option.{option_map};
ghost use Rattle.be_input.specs.Pointing.{trees_resized};

use be_geom::{NoMemory, OutOfRange};
use be_views::ViewTree;
use std::alloc::Global;
use std::marker::Model;

/// What input knows beside the windows: the views of each, the view that has the focus in it, and
/// the view that the pointer was over last.
#[derive(Debug, Drop)]
pub struct Pointing {
    pub(crate) trees: Vec<ViewTree>,
    pub(crate) focus: Vec<Option<u16>>,
    pub(crate) under: Option<(u16, u16)>,
}

impl Model for Pointing {
    ghost use Rattle.std.specs.Prelude.{◌≡◌, length};
    ghost use Rattle.be_input.specs.Pointing as pointing;

    ghost Value = { pointing.Pointing };

    ghost view = { λ p. record {
      trees = p.trees.items;
      focus = p.focus.items;
      under = p.under;
    } };

    ghost invariant = { λ p. length p.focus.items ≡ length p.trees.items };
}

impl Pointing {
    /// Nothing has the focus, and no view is remembered. There is a tree for each window.
    pub fn new(alloc: Global, trees: Vec<ViewTree>) -> Result<Pointing, NoMemory>
        ensures { IfOk result (λ pointing. pointing
            ≡ record {
              trees = trees.items;
              focus = replicate (length trees.items) None;
              under = None;
            }) }
    {
        let focus = vec![in alloc; None; trees.len()]?;
        Ok(Pointing {
            trees,
            focus,
            under: None,
        })
    }

    /// Remembers the view that the pointer is over now.
    pub fn remember(&mut self, under: Option<(u16, u16)>)
        ensures { self.new ≡ record self.old { under = under } }
    {
        self.under = under;
    }

    /// The views of a window.
    pub fn tree(&self, w: u16) -> &ViewTree
        requires { w < length self.now.trees }
        ensures { slice_get self.now.trees w ≡ Some result.now }
    {
        &self.trees[usize::from(w)]
    }

    /// Gives a view of a window the focus there, or takes it from all: `BView::MakeFocus`.
    pub fn set_focus(&mut self, w: u16, view: Option<u16>)
        requires { w < length self.old.trees }
        ensures { self.new ≡ record self.old { focus = slice_set self.old.focus w view } }
    {
        self.focus[usize::from(w)] = view;
    }

    /// The views of a window after its resize. Width and height are the edges' differences, as for
    /// `ViewTree::new`.
    pub fn resize(&mut self, w: u16, width: i16, height: i16) -> Result<(), OutOfRange>
        requires there { w < length self.old.trees }
        requires across { pos 0 ≤ℤ width }
        requires down { pos 0 ≤ℤ height }
        ensures resized { OnOk result (option_map (λ trees. record self.old { trees = trees })
            (trees_resized self.old.trees w width height) ≡ Some self.new) }
        ensures out { IsErr result ↔ (trees_resized self.old.trees w width height ≡ None) }
        ensures err { OnErr result (self.new ≡ self.old) }
    {
        self.trees[usize::from(w)].resize(width, height)
    }
}
