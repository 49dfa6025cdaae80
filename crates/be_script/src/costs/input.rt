ghost use Rattle.std.specs.Prelude.{◌≡◌, ◌≤◌, sum_by, length};
ghost use Rattle.be_message.specs.Words.{mouse_down, mouse_up, mouse_moved, key_down};
ghost use Rattle.be_script.specs.Routes.{routed_number};
ghost use Rattle.be_script.specs.Costs.{limited, event_cost, most_at, most_of};

use crate::InputLine;
use crate::costs::routes::Routes;
use crate::costs::steps::message_cost;
use be_message::Target;

/// The words of input's messages: `MDWN`, `MUP_`, `MMOV`, `KEYD`.
const MOUSE_DOWN: u32 = 0x4d44_574e;

const MOUSE_UP: u32 = 0x4d55_505f;

const MOUSE_MOVED: u32 = 0x4d4d_4f56;

const KEY_DOWN: u32 = 0x4b45_5944;

/// The most that a message of input with each word may cost.
#[derive(Clone, Copy)]
pub(crate) struct MostCosts {
    pub(crate) down: u64,
    pub(crate) up: u64,
    pub(crate) moved: u64,
    pub(crate) key: u64,
}

pub(crate) fn most_costs(routes: &Routes, costs: &[u64]) -> MostCosts
    requires { length routes.now.windows.items ≤ 65536 }
    ensures down { result.down ≡ limited (most_of routes.now costs.now mouse_down) }
    ensures up { result.up ≡ limited (most_of routes.now costs.now mouse_up) }
    ensures moved { result.moved ≡ limited (most_of routes.now costs.now mouse_moved) }
    ensures key { result.key ≡ limited (most_of routes.now costs.now key_down) }
{
    MostCosts {
        down: most_cost(routes, costs, MOUSE_DOWN),
        up: most_cost(routes, costs, MOUSE_UP),
        moved: most_cost(routes, costs, MOUSE_MOVED),
        key: most_cost(routes, costs, KEY_DOWN),
    }
}

fn most_cost(routes: &Routes, costs: &[u64], what: u32) -> u64
    requires { length routes.now.windows.items ≤ 65536 }
    ensures { result ≡ limited (most_of routes.now costs.now what) }
{
    let mut most = 0;
    for (window, handlers) in routes.windows.iter().enumerate() {
        most = most.max(most_cost_in(routes, costs, window as u16, handlers.views, what));
    }
    most
}

/// The most at this window or one of its views.
fn most_cost_in(routes: &Routes, costs: &[u64], window: u16, views: u16, what: u32) -> u64
    ensures { result ≡ limited (most_at (routed_number routes.now) costs.now what window views) }
{
    let mut most = message_cost(costs, routes.body(window, Target::Window, what));
    for view in 0..views {
        most = most.max(message_cost(costs, routes.body(window, Target::View(view), what)));
    }
    most
}

pub(crate) fn input_cost(most: &MostCosts, updates: u64, input: &[InputLine]) -> u64
    ensures { result ≡ limited (sum_by (event_cost most.now updates) input.now) }
{
    let mut cost: u64 = 0;
    for event in input {
        cost = cost.saturating_add(event_cost(most, updates, *event));
    }
    cost
}

fn event_cost(most: &MostCosts, updates: u64, event: InputLine) -> u64
    ensures { result ≡ limited (event_cost most.now updates event) }
{
    let messages = match event {
        InputLine::Press(_) => updates.saturating_add(most.down),
        InputLine::Release(_) => most.up,
        InputLine::Move(_) => most.moved.saturating_mul(2),
        InputLine::Key(_) => most.key,
        InputLine::After(_) => 0,
    };
    messages.saturating_add(1)
}
