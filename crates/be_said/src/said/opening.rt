ghost use Rattle.std.specs.Prelude.{◌≡◌, ◌<◌, ◌≤◌, ◌++◌, ◌∷◌, [], None, length, map, IfErr, IfOk};
ghost use Rattle.std.specs.Prelude.{OnOk};
ghost use Rattle.be_said.specs.Due.{IsDue};
ghost use Rattle.be_said.specs.Fits.{Fits, IsNew};
ghost use Rattle.be_said.specs.Deeds.{adds_window};
ghost use Rattle.be_said.specs.Inside.{AreNew, IsOpened};
ghost use Rattle.be_said.specs.Judging.{done};

// A window that is declared.

use super::chains::taken;
use super::{SoFar, everywhere, names};
use crate::fault::LineFault;
use crate::inside::Inside;
use be_command::{Names, Reason};
use be_geom::NoMemory;
use be_handler::Chain;
use be_message::Text;
use be_script::{BitmapLine, WindowLine};
use std::alloc::Global;

const WINDOWS: usize = 32;

impl SoFar {
    pub(super) fn add_window(mut self, alloc: Global, line: WindowLine) -> Result<SoFar, LineFault>
        requires { Fits self (adds_window line) }
        ensures { IsDue (done self (adds_window line)) result }
    {
        if self.windows.len() >= WINDOWS {
            return Err(LineFault::Bad(Reason::TooMany));
        }
        let inside = opened(alloc, &self.windows, &self.bitmaps, &line.name)?;
        everywhere::add_window(&mut self.inside, &line.name)?;
        self.inside.push(inside)?;
        self.windows.push(line)?;
        Ok(self)
    }
}

/// What is kept of a window that is declared behind these.
fn opened(
    alloc: Global,
    windows: &[WindowLine],
    bitmaps: &[BitmapLine],
    name: &Text,
) -> Result<Inside, LineFault>
    requires few { length windows.now < 32 }
    requires few_bitmaps { length bitmaps.now ≤ 64 }
    requires new_windows { AreNew (map (λ line. line.name) windows.now) }
    requires new_bitmaps { AreNew (map (λ line. line.name) bitmaps.now) }
    requires new { IsNew (map (λ line. line.name) windows.now) name.now }
    ensures opened { IfOk result
        (λ inside. IsOpened (map (λ line. line.name) windows.now ++ name.now ∷ [])
        (map (λ line. line.name) bitmaps.now) inside) }
    ensures memory { IfErr result (λ fault. fault ≡ LineFault.NoMemory) }
{
    let mut names = Names::new(alloc);
    add_windows(&mut names, windows)?;
    names::add_window(&mut names, name)?;
    add_bitmaps(&mut names, bitmaps)?;
    Ok(Inside {
        names,
        plain: Vec::new(alloc),
        depths: vec![in alloc; 1; 1]?,
        chain: root_chain(alloc)?,
        draws: vec![in alloc; false; 1]?,
    })
}

/// A chain with the root alone.
fn root_chain(alloc: Global) -> Result<Chain, LineFault>
    ensures root { IfOk result (λ chain.
        chain ≡ record { parents = None ∷ []; nexts = []; filters = []; bodies = [] }) }
    ensures memory { IfErr result (λ fault. fault ≡ LineFault.NoMemory) }
{
    let mut chain = Chain::new(alloc);
    taken(chain.add_view(None))?;
    Ok(chain)
}

fn add_windows(names: &mut Names, windows: &[WindowLine]) -> Result<(), NoMemory>
    requires none { names.old.windows ≡ [] }
    requires few { length windows.now ≤ 32 }
    requires new { AreNew (map (λ line. line.name) windows.now) }
    ensures { OnOk result
        (names.new ≡ record names.old { windows = map (λ line. line.name) windows.now }) }
{
    for line in windows {
        names::add_window(names, &line.name)?;
    }
    Ok(())
}

fn add_bitmaps(names: &mut Names, bitmaps: &[BitmapLine]) -> Result<(), NoMemory>
    requires none { names.old.bitmaps ≡ [] }
    requires few { length bitmaps.now ≤ 64 }
    requires new { AreNew (map (λ line. line.name) bitmaps.now) }
    ensures { OnOk result
        (names.new ≡ record names.old { bitmaps = map (λ line. line.name) bitmaps.now }) }
{
    for line in bitmaps {
        names::add_bitmap(names, &line.name)?;
    }
    Ok(())
}
