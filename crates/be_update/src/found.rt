use be_geom::Rect;
use be_region::Region;
use std::marker::Model;

/// What an update of a window is to draw. It holds as long as the pane stays as it is.
#[derive(Debug, Drop)]
pub struct Survey {
    /// The pixels that wait, in window coordinates.
    pub(crate) session: Region,
    /// The views that have some of them, each with the rectangle round them, in view coordinates.
    pub(crate) views: Vec<(u16, Rect)>,
}

impl Model for Survey {
    ghost use Rattle.be_update.specs.Surveys.{Surveyed};

    ghost Value = { Surveyed };

    ghost view = { λ s. record { session = s.session; views = s.views.items } };
}
