ghost use Rattle.std.specs.Prelude.{◌≡◌, ◌↔◌, ℤ, false, length, map, option_map, IfOk, IsTrue};
ghost use Rattle.be_span.specs.declared.Cell.{Cell};
ghost use Rattle.be_state.specs.Stacks.{first_stack, origin_point};
ghost use Rattle.be_pane.specs.Panes.{first_pane};
ghost use Rattle.be_pane.specs.StandsFor.{PaneStandsFor, IsWhole};
ghost use Rattle.be_pane.specs.Owed.{IsOwed, with_notice};

use be_color::Color;
use be_geom::{NoMemory, Point};
use be_region::Region;
use be_span::SpanBuf;
use be_state::StateStack;
use be_views::ViewTree;
use std::alloc::Global;

/// What the server keeps of a window.
#[derive(Debug, Drop)]
pub struct Pane {
    pub window: u16,
    /// The left top of the window's frame, in screen coordinates.
    pub place: Point,
    /// The pixels that the window owns, in screen coordinates.
    pub spans: SpanBuf,
    pub tree: ViewTree,
    /// For each view its colour: `BView::ViewColor`.
    pub colors: Vec<Color>,
    /// For each view how it draws.
    pub states: Vec<StateStack>,
    /// The pixels that an update may draw, in window coordinates. None while there is no update.
    pub session: Option<Region>,
    /// Whether a notice of an update was posted that hasn't begun.
    pub notified: bool,
}

impl Pane {
    /// A window at (0, 0) that owns no pixel. Its views have these colours and draw as every view
    /// does at first.
    pub fn new(
        alloc: Global,
        window: u16,
        tree: ViewTree,
        colors: Vec<Color>,
    ) -> Result<Pane, NoMemory>
        requires { length colors.items ≡ length tree }
        ensures first { IfOk result (λ pane. (cells : ℤ → ℤ → Cell) →
            PaneStandsFor pane window origin_point (first_pane colors.items) tree
            (λ x y. false) cells) }
        ensures whole { IfOk result IsWhole }
    {
        let spans = SpanBuf::prepare(alloc, Region::empty(alloc))?;
        let states = first_states(alloc, &colors)?;
        Ok(Pane {
            window,
            place: Point { x: 0, y: 0 },
            spans,
            tree,
            colors,
            states,
            session: None,
            notified: false,
        })
    }

    /// The pixels that the window owns, in screen coordinates.
    pub fn spans(&self) -> &SpanBuf
        ensures { result.now ≡ self.now.spans }
    {
        &self.spans
    }

    /// The window's views.
    pub fn tree(&self) -> &ViewTree
        ensures { result.now ≡ self.now.tree }
    {
        &self.tree
    }

    /// The pixels that an open update may draw, in window coordinates. None where none is open.
    pub fn session(&self) -> Option<&Region>
        ensures { option_map (λ region. region.now) result ≡ self.now.session }
    {
        self.session.as_ref()
    }

    /// Whether a notice of an update has to be posted. No cell is looked at.
    pub fn is_owed(&self) -> bool
        ensures { IsTrue result ↔ IsOwed self.now }
    {
        !self.spans.is_clean() && self.session.is_none() && !self.notified
    }

    /// Keeps that a notice was posted.
    pub fn mark_notified(&mut self)
        ensures { self.new ≡ with_notice self.old }
    {
        self.notified = true;
    }
}

/// How views of these colours draw at first.
fn first_states(alloc: Global, colors: &[Color]) -> Result<Vec<StateStack>, NoMemory>
    ensures { IfOk result (λ states. states.items ≡ map (λ _. first_stack) colors.now) }
{
    let mut states = Vec::with_capacity(alloc, colors.len())?;
    for _color in colors {
        states.push(StateStack::new(alloc)?)?;
    }
    Ok(states)
}
