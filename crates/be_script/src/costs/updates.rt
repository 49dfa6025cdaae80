ghost use Rattle.std.specs.Prelude.{◌≡◌, ◌+◌, ◌*◌, sum_by, length};
ghost use Rattle.be_script.specs.Costs.{limited, own_cost, all_updates};

use crate::costs::steps::own_cost;
use crate::{DrawLine, Script};

/// An update of every window.
pub(crate) fn updates_cost(script: &Script) -> u64
    ensures { result ≡ limited (all_updates script.now.windows.items script.now.draws.items) }
{
    let windows = script.windows.len() as u64;
    windows
        .saturating_mul(8)
        .saturating_add(draws_cost(&script.draws))
}

fn draws_cost(draws: &[DrawLine]) -> u64
    ensures { result ≡ limited (sum_by (λ line. sum_by (own_cost 0) line.program) draws.now) }
{
    let mut cost: u64 = 0;
    for line in draws {
        cost = cost.saturating_add(own_cost(0, &line.program));
    }
    cost
}
