ghost use Rattle.std.specs.Prelude.{◌≡◌, ◌++◌, ◌∷◌, [], length, slice_index_or, codes, OnErr, OnOk};
ghost use Rattle.be_command.specs.Names.{name_fault, IsNumbered, number_in};
ghost use Rattle.be_command.specs.Laws.{AreKnown};

use crate::fault::NameFault;
use crate::name::NameList;
use std::alloc::Global;
use std::marker::Model;

const WINDOWS: usize = 32;

// The root view has no place in the list of the others.
const VIEWS_BESIDE_THE_ROOT: usize = 31;

const BITMAPS: usize = 64;

/// The names of windows, of the views of one window and of bitmaps, by which commands are read and
/// written. Each is numbered in the order in which it was added; the view `root` has number 0.
///
/// To find a name takes a look at each of its kind.
#[derive(Debug, Drop)]
pub struct Names {
    windows: NameList,
    views: NameList,
    bitmaps: NameList,
}

impl Model for Names {
    ghost use Rattle.std.specs.Prelude.{◌∷◌, ◌≤◌, length, codes};
    ghost use Rattle.be_command.specs.Names.{Known};

    ghost Value = { Known };

    ghost view = { λ n. record {
      windows = n.windows;
      views = codes "root" ∷ n.views;
      bitmaps = n.bitmaps;
    } };

    ghost invariant = { λ n.
        (length n.windows ≤ 32) × (length n.views ≤ 31) × (length n.bitmaps ≤ 64) };
}

impl Names {
    /// No windows, no bitmaps, and the root view alone.
    pub fn new(alloc: Global) -> Names
        ensures { result ≡ record { windows = []; views = codes "root" ∷ []; bitmaps = [] } }
    {
        Names {
            windows: NameList::new(alloc),
            views: NameList::new(alloc),
            bitmaps: NameList::new(alloc),
        }
    }

    /// Adds the name of the next window, and gives its number.
    pub fn add_window(&mut self, name: &str) -> Result<u16, NameFault>
        ensures number { IsNumbered result (name_fault 32 self.old.windows name.now)
            self.old.windows }
        ensures ok { OnOk result (self.new
            ≡ record self.old { windows = self.old.windows ++ name.now ∷ [] }) }
        ensures err { OnErr result (self.new ≡ self.old) }
    {
        self.windows.add(name.as_bytes(), 0, WINDOWS)
    }

    /// Adds the name of the next view of the window, and gives its number.
    #[tactic(auto, using(crate::proofs::NameLemmas::beside_the_root))]
    pub fn add_view(&mut self, name: &str) -> Result<u16, NameFault>
        ensures number { IsNumbered result (name_fault 32 self.old.views name.now) self.old.views }
        ensures ok { OnOk result (self.new
            ≡ record self.old { views = self.old.views ++ name.now ∷ [] }) }
        ensures err { OnErr result (self.new ≡ self.old) }
    {
        self.views.add(name.as_bytes(), 1, VIEWS_BESIDE_THE_ROOT)
    }

    /// Adds the name of the next bitmap, and gives its number.
    pub fn add_bitmap(&mut self, name: &str) -> Result<u16, NameFault>
        ensures number { IsNumbered result (name_fault 64 self.old.bitmaps name.now)
            self.old.bitmaps }
        ensures ok { OnOk result (self.new
            ≡ record self.old { bitmaps = self.old.bitmaps ++ name.now ∷ [] }) }
        ensures err { OnErr result (self.new ≡ self.old) }
    {
        self.bitmaps.add(name.as_bytes(), 0, BITMAPS)
    }

    // Names that were added may stand together. This says it, and does nothing.
    pub(crate) fn are_known(&self)
        ensures { AreKnown self.now }
    {
        self.windows.are_names();
        self.views.are_names();
        self.bitmaps.are_names();
    }

    /// The number of a window. None where it has no such name.
    pub fn window(&self, name: &[u8]) -> Option<u16>
        ensures { result ≡ number_in self.now.windows name.now }
    {
        self.windows.number(name, 0)
    }

    /// The number of a view, 0 of the root. None where it has no such name.
    pub fn view(&self, name: &[u8]) -> Option<u16>
        ensures { result ≡ number_in self.now.views name.now }
    {
        let beside_the_root = &self.views;
        if name == b"root".as_slice() {
            return Some(0);
        }
        beside_the_root.number(name, 1)
    }

    /// The number of a bitmap. None where it has no such name.
    pub fn bitmap(&self, name: &[u8]) -> Option<u16>
        ensures { result ≡ number_in self.now.bitmaps name.now }
    {
        self.bitmaps.number(name, 0)
    }

    // The name of a window, or nothing where it has none.
    pub(crate) fn window_name(&self, number: u16) -> &[u8]
        ensures { result.now ≡ slice_index_or self.now.windows number [] }
    {
        self.windows.name_at(usize::from(number))
    }

    // The name of a view, or nothing where it has none.
    #[tactic(auto, using(crate::proofs::NameLemmas::name_behind))]
    pub(crate) fn view_name(&self, number: u16) -> &[u8]
        ensures { result.now ≡ slice_index_or self.now.views number [] }
    {
        let beside_the_root = &self.views;
        match number {
            0 => b"root",
            _ => beside_the_root.name_at(usize::from(number - 1)),
        }
    }

    // The name of a bitmap, or nothing where it has none.
    pub(crate) fn bitmap_name(&self, number: u16) -> &[u8]
        ensures { result.now ≡ slice_index_or self.now.bitmaps number [] }
    {
        self.bitmaps.name_at(usize::from(number))
    }
}
