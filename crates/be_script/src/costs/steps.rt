ghost use Rattle.std.specs.Prelude.{◌≡◌, sum_by};
ghost use Rattle.be_script.specs.Costs.{limited, own_cost, app_step_cost, table_cost};
ghost use Rattle.be_script.specs.Routes.{routed_number};

use crate::AppLine;
use crate::costs::commands::command_cost;
use crate::costs::routes::Routes;
use be_actor::{Instruction, Program};

/// What the instructions cost without the messages that they post.
pub(crate) fn own_cost(updates: u64, program: &Program) -> u64
    ensures { result ≡ limited (sum_by (own_cost updates) program.now) }
{
    let mut cost: u64 = 0;
    for step in &program.steps {
        cost = cost.saturating_add(own_step_cost(updates, step));
    }
    cost
}

fn own_step_cost(updates: u64, step: &Instruction) -> u64
    ensures { result ≡ limited (own_cost updates step.now) }
{
    match step {
        Instruction::Post(..) | Instruction::Forward(..) => 0,
        Instruction::Note(_) | Instruction::Reply(_) | Instruction::Lock(_) | Instruction::Flush =>
            1,
        Instruction::Send(..) | Instruction::Unlock | Instruction::Sync => 2,
        Instruction::Draw(command) => command_cost(updates, command),
    }
}

/// A message of hop 0 and what the body with this number does with it.
pub(crate) fn message_cost(costs: &[u64], body: Option<usize>) -> u64
    ensures { result ≡ limited (table_cost costs.now body) }
{
    match body.and_then(|number| costs.get(number).copied()) {
        Some(cost) => cost.saturating_add(3),
        None => 3,
    }
}

/// All instructions of all applications. Their messages have hop 0.
pub(crate) fn apps_cost(routes: &Routes, costs: &[u64], updates: u64, apps: &[AppLine]) -> u64
    ensures { let step_cost = app_step_cost (routed_number routes.now) costs.now updates in
        result ≡ limited (sum_by (λ app. sum_by step_cost app.program) apps.now) }
{
    let mut cost: u64 = 0;
    for app in apps {
        cost = cost.saturating_add(app_cost(routes, costs, updates, &app.program));
    }
    cost
}

fn app_cost(routes: &Routes, costs: &[u64], updates: u64, program: &Program) -> u64
    ensures { let step_cost = app_step_cost (routed_number routes.now) costs.now updates in
        result ≡ limited (sum_by step_cost program.now) }
{
    let mut cost: u64 = 0;
    for step in &program.steps {
        cost = cost.saturating_add(app_step_cost(routes, costs, updates, step));
    }
    cost
}

/// An application has no message to forward, so the word of a forwarded one doesn't count.
fn app_step_cost(routes: &Routes, costs: &[u64], updates: u64, step: &Instruction) -> u64
    ensures { result
        ≡ limited (app_step_cost (routed_number routes.now) costs.now updates step.now) }
{
    let own = own_step_cost(updates, step);
    match step {
        Instruction::Post(window, target, draft) => {
            let body = routes.body(*window, *target, draft.what);
            message_cost(costs, body).saturating_add(1)
        }
        Instruction::Forward(window, target) => {
            let body = routes.body(*window, *target, 0);
            message_cost(costs, body).saturating_add(1)
        }
        Instruction::Send(window, target, draft) => {
            let body = routes.body(*window, *target, draft.what);
            message_cost(costs, body).saturating_add(own)
        }
        Instruction::Note(_)
        | Instruction::Reply(_)
        | Instruction::Lock(_)
        | Instruction::Unlock
        | Instruction::Flush
        | Instruction::Sync
        | Instruction::Draw(_) => own,
    }
}
