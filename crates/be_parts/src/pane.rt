ghost use Rattle.std.specs.Prelude.{◌≡◌, []};
ghost use Rattle.be_command.specs.Effects.{effect_of};
ghost use Rattle.be_parts.specs.Kept.{IsUnwritten};
ghost use Rattle.be_parts.specs.Begun.{IsBegun, IsPassed};
ghost use Rattle.be_parts.specs.Changed.{HasSpansOf, IsAsBefore};
ghost use Rattle.be_parts.specs.Panes.{HasNotified, IsExecuted};
ghost use Rattle.be_parts.specs.Stands.{PaneIs};

use crate::log::Log;
use crate::meaning::Meaning;
use be_bitmap::Bitmap;
use be_command::Command;
use be_desk::{Plan, carry_out_pane};
use be_geom::Rect;
use be_pane::Pane;
use be_told::Told;
use be_twin::execute;
use be_update::{
    Survey, a_notice_is_passed_over_in_the_window, an_update_begins_in_the_window, begin, pass,
    waiting_pixels_are_listed,
};
use std::alloc::Global;
use std::marker::Model;

/// What the server keeps of a window, and the pixels that the window owns. It means the clips as
/// they were said, and a cell for each pixel of the screen that is the window's.
#[derive(Drop)]
pub struct PanePart {
    pane: Pane,
    told: Told<Meaning>,
    pub(crate) log: Log,
}

impl Model for PanePart {
    ghost use Rattle.std.specs.Coded.{codes};
    ghost use Rattle.be_message.specs.Codes.{message_code};
    ghost use Rattle.be_reply.specs.Codes.{cell_code};
    ghost use Rattle.be_parts.specs.Kept.{Kept};
    ghost use Rattle.be_parts.specs.Stands.{PaneIs};

    ghost Value = { Kept };

    ghost coded = { Prim.hlevel (codes, message_code, cell_code) };

    ghost view = { λ p. record { slice = p.told.value; log = p.log } };

    ghost invariant = { λ p. PaneIs p.told.value p.pane };
}

impl PanePart {
    /// A pane that stands for what is told.
    pub fn new(alloc: Global, kept: Pane, means: Told<Meaning>) -> PanePart
        requires { PaneIs means.value kept }
        ensures slice { result.slice ≡ means.value }
        ensures log { IsUnwritten result.log }
    {
        PanePart {
            pane: kept,
            told: means,
            log: Log::new(alloc),
        }
    }

    /// The pane, which stands for the slice.
    pub fn pane(&self) -> &Pane
        ensures { PaneIs self.now.slice result.now }
    {
        &self.pane
    }

    /// Executes the command at the front of the window's link, which is no change. It costs what
    /// the command draws.
    pub fn execute(&mut self, command: Command, bitmaps: &[Bitmap], next: Told<Meaning>)
        requires { IsExecuted bitmaps.now (effect_of command) self.old.slice next.value }
        ensures slice { self.new.slice ≡ next.value }
        ensures log { self.new.log ≡ self.old.log }
    {
        let _outcome = execute(&mut self.pane, command, bitmaps);
        self.told = next;
    }

    /// Carries a planned change out, with the spans of this number. The pixels that the pane had go
    /// into the plan.
    pub fn change(&mut self, plan: &mut Plan, number: usize, next: Told<Meaning>)
        requires { HasSpansOf plan.old number self.old.slice next.value }
        ensures slice { self.new.slice ≡ next.value }
        ensures log { self.new.log ≡ self.old.log }
        ensures plan { IsAsBefore plan.old number plan.new }
    {
        carry_out_pane(plan, number, &mut self.pane);
        self.told = next;
    }

    /// Begins an update as it was surveyed. Gives the views to be drawn.
    pub fn begin(&mut self, survey: Survey, next: Told<Meaning>) -> Vec<(u16, Rect)>
        requires { IsBegun survey self.old.slice next.value }
        ensures slice { self.new.slice ≡ next.value }
        ensures log { self.new.log ≡ self.old.log }
        ensures views { result.items ≡ survey.views }
    {
        an_update_begins_in_the_window();
        waiting_pixels_are_listed();
        let views = begin(&mut self.pane, survey);
        self.told = next;
        views
    }

    /// Takes back the notice of an update where nothing waits any more.
    pub fn pass(&mut self, next: Told<Meaning>)
        requires { IsPassed self.old.slice next.value }
        ensures slice { self.new.slice ≡ next.value }
        ensures log { self.new.log ≡ self.old.log }
    {
        a_notice_is_passed_over_in_the_window();
        waiting_pixels_are_listed();
        pass(&mut self.pane);
        self.told = next;
    }

    /// Keeps that a notice was posted.
    pub fn notify(&mut self, next: Told<Meaning>)
        requires { HasNotified self.old.slice next.value }
        ensures slice { self.new.slice ≡ next.value }
        ensures log { self.new.log ≡ self.old.log }
    {
        self.pane.mark_notified();
        self.told = next;
    }
}
