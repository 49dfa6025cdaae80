ghost use Rattle.std.specs.Prelude.{◌≡◌, ◌<◌, ℕ, ℤ, None, Ok, Some, IfOk, OnOk, OnErr, MatchOption};
ghost use Rattle.std.specs.Prelude.{length, option_map, slice_get};
ghost use Rattle.be_span.specs.Spans.{cell_in};
ghost use Rattle.be_desk.specs.Affected.{AreAffected};
ghost use Rattle.be_desk.specs.Changes as machine;
ghost use Rattle.be_desk.specs.Changes.{desk_after};
ghost use Rattle.be_desk.specs.Desks.{desk_of};
ghost use Rattle.desk_screen.specs.Making.{AreMade};
ghost use Rattle.desk_screen.specs.Screens.{IsScreen};

use crate::asking::is_askable;
use crate::changing::{carry_out, planned};
use crate::declared::Declared;
use crate::fault::{Refusal, ScreenFault};
use crate::making::Making;
use crate::marking::{clear_all, set_in};
use be_desk::{Desk, affected};
use be_geom::Change;
use be_input::Pointing;
use be_pane::Pane;
use be_span::Cell;
use be_stack::Stack;
use std::alloc::Global;
use std::marker::Model;

/// A desk with the panes of all its windows, closed ones among them.
#[derive(Debug, Drop)]
pub struct Screen {
    desk: Desk,
    /// In order of their windows' numbers.
    panes: Vec<Pane>,
}

impl Model for Screen {
    ghost use Rattle.be_desk.specs.Desks.{desk_of};
    ghost use Rattle.desk_screen.specs.Screens as screens;
    ghost use Rattle.desk_screen.specs.Screens.{IsScreen};

    ghost Value = { screens.Screen };

    ghost view = { λ s. record { desk = desk_of s.desk; panes = s.panes.items } };

    ghost invariant = { λ s. IsScreen (desk_of s.desk) s.panes.items };
}

impl Screen {
    /// A screen of so many columns and rows with these windows. Each is hidden once, and the last
    /// is in front of the others.
    pub fn new(
        alloc: Global,
        width: u16,
        height: u16,
        windows: &[Declared<'_>],
    ) -> Result<Screen, ScreenFault> {
        let made = made_of(alloc, width, height, windows)?;
        let pointing = Pointing::new(alloc, made.trees)?;
        Ok(Screen {
            desk: Desk {
                stack: made.stack,
                pointing,
            },
            panes: made.panes,
        })
    }

    /// The windows that a change would alter, as `be_desk` tells them.
    pub fn affected(&self, alloc: Global, w: u16, change: &Change) -> Result<Vec<u16>, Refusal>
        ensures { IfOk result (λ names. (after : machine.Desk)
            → desk_after self.now.desk w change.now ≡ Ok after
            → AreAffected self.now.desk.windows after.windows w names.items) }
    {
        if !is_askable(&self.desk.stack, w, *change) {
            return Err(Refusal::Unasked);
        }
        Ok(affected(alloc, &self.desk, w, change)?)
    }

    /// Changes a window. Where it is refused nothing changes.
    pub fn change(&mut self, alloc: Global, w: u16, change: &Change) -> Result<(), Refusal>
        ensures changed { OnOk result
            (desk_after self.old.desk w change.now ≡ Ok self.new.desk) }
        ensures refused { OnErr result (self.new ≡ self.old) }
    {
        change_parts(alloc, &mut self.desk, &mut self.panes, w, change)
    }

    /// Gives a pixel of a window another cell. False, and no change, where it isn't the window's.
    pub fn set(&mut self, w: u16, x: i32, y: i32, cell: Cell) -> bool
        ensures { self.new.desk ≡ self.old.desk }
    {
        set_in(&mut self.panes, w, x, y, cell)
    }

    /// Takes the marks of all pixels away.
    pub fn clear_marks(&mut self)
        ensures { self.new.desk ≡ self.old.desk }
    {
        clear_all(&mut self.panes);
    }

    /// What the pane shows that has the pixel of the screen. None on the desktop.
    pub fn cell(&self, x: i32, y: i32) -> Option<Cell> {
        self.panes.iter().find_map(|pane| pane.spans.get(x, y))
    }

    /// The desk.
    pub fn desk(&self) -> &Desk
        ensures { desk_of result.now ≡ self.now.desk }
    {
        &self.desk
    }

    /// What is kept of a window. None where there is no such window.
    pub fn pane(&self, w: u16) -> Option<&Pane>
        ensures { option_map (λ pane. pane.now) result ≡ slice_get self.now.panes w }
    {
        self.panes.get(usize::from(w))
    }
}

fn made_of(
    alloc: Global,
    width: u16,
    height: u16,
    windows: &[Declared<'_>],
) -> Result<Making, ScreenFault>
    ensures { IfOk result (λ made. AreMade made.stack made.trees.items made.panes.items) }
{
    let mut made = Making {
        stack: Stack::new(alloc, width, height),
        trees: Vec::new(alloc),
        panes: Vec::new(alloc),
    };
    for declared in windows {
        made.add(alloc, declared)?;
    }
    Ok(made)
}

/// Changes a window of a desk and the panes of all windows.
fn change_parts(
    alloc: Global,
    desk: &mut Desk,
    panes: &mut [Pane],
    w: u16,
    change: &Change,
) -> Result<(), Refusal>
    requires { IsScreen (desk_of desk.old) panes.old }
    ensures screen { OnOk result (IsScreen (desk_of desk.new) panes.new) }
    ensures changed { OnOk result
        (desk_after (desk_of desk.old) w change.now ≡ Ok (desk_of desk.new)) }
    ensures desk { OnErr result (desk.new ≡ desk.old) }
    ensures panes { OnErr result (panes.new ≡ panes.old) }
{
    if !is_askable(&desk.stack, w, *change) {
        return Err(Refusal::Unasked);
    }
    let ready = planned(alloc, desk, panes, w, change)?;
    carry_out(desk, panes, ready);
    Ok(())
}
