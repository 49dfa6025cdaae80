ghost use Rattle.std.specs.Prelude.{◌≡◌};
ghost use Rattle.be_desk.specs.Desks.{desk_of, IsPaired};
ghost use Rattle.be_parts.specs.Desks.{IsPlanFor, IsChangedBy, under_in};
ghost use Rattle.be_parts.specs.Effects.{desk_with};
ghost use Rattle.be_rules.specs.Slices.{desk};

use be_desk::{Desk, Plan, carry_out_desk};
use std::marker::Model;

/// What is known of all windows but for their pixels.
#[derive(Drop)]
pub struct DeskPart {
    desk: Desk,
}

impl Model for DeskPart {
    ghost use Rattle.std.specs.Coded.{codes};
    ghost use Rattle.be_message.specs.Codes.{message_code};
    ghost use Rattle.be_reply.specs.Codes.{cell_code};
    ghost use Rattle.be_desk.specs.Desks.{desk_of, IsPaired};
    ghost use Rattle.be_rules.specs.Slices as slices;

    ghost Value = { slices.Slice };

    ghost coded = { Prim.hlevel (codes, message_code, cell_code) };

    ghost view = { λ p. slices.desk (desk_of p.desk) };

    ghost invariant = { λ p. IsPaired (desk_of p.desk) };
}

impl DeskPart {
    /// There are views for each window, and their root is the window's.
    pub fn new(known: Desk) -> DeskPart
        requires { IsPaired (desk_of known) }
        ensures { result ≡ desk (desk_of known) }
    {
        DeskPart { desk: known }
    }

    /// The windows, their views, the focus and what is under the pointer.
    pub fn desk(&self) -> &Desk
        ensures slice { self.now ≡ desk (desk_of result.now) }
        ensures paired { IsPaired (desk_of result.now) }
    {
        &self.desk
    }

    /// Carries a planned change out, once it is carried out on each pane.
    pub fn change(&mut self, plan: Plan)
        requires { IsPlanFor plan self.old }
        ensures { IsChangedBy plan self.old self.new }
    {
        carry_out_desk(&mut self.desk, plan);
    }

    /// Remembers the window and the view that the pointer is over.
    pub fn remember(&mut self, under: Option<(u16, u16)>)
        ensures { self.new ≡ desk_with (under_in under) self.old }
    {
        self.desk.pointing.remember(under);
    }
}
