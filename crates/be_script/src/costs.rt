ghost use Rattle.std.specs.Prelude.{◌≡◌, IfOk};
ghost use Rattle.be_script.specs.Routable.{IsRoutable};
ghost use Rattle.be_script.specs.Script.{declared_by};
ghost use Rattle.be_script.specs.Work.{work_of};

mod body_numbers;
mod commands;
mod input;
mod law;
mod routes;
mod steps;
mod table;
mod updates;

use crate::Script;
use be_geom::NoMemory;
pub use law::limits_make_routable;
use std::alloc::Global;

/// A bound on the entries of all histories of a script. It costs a few steps for each line, and for
/// each instruction at each of eight hops. Each message that is written is routed once.
pub fn work(alloc: Global, script: &Script) -> Result<u64, NoMemory>
    requires { IsRoutable (declared_by script.now) }
    ensures { IfOk result (λ n. n ≡ work_of (declared_by script.now)) }
{
    let routes = routes::routes_of(alloc, script)?;
    let updates = updates::updates_cost(script);
    let parts = table::parts(alloc, &routes, updates, &script.bodies)?;
    let costs = table::costs(alloc, &parts)?;
    let apps = steps::apps_cost(&routes, &costs, updates, &script.apps);
    let most = input::most_costs(&routes, &costs);
    let input = input::input_cost(&most, updates, &script.input);
    Ok(apps.saturating_add(input).saturating_add(1))
}
