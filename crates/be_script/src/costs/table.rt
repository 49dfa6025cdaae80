ghost use Rattle.std.specs.Prelude.{◌≡◌, ◌+◌, ◌++◌, IfOk, OnOk, OnErr, map, sum_by, length};
ghost use Rattle.be_script.specs.Costs.{limited, own_cost, posts_of, posts_of_step, part_of};
ghost use Rattle.be_script.specs.Costs.{last_cost, cost_before, posted_cost, table};
ghost use Rattle.be_script.specs.Routes.{routed_number};

use crate::BodyLine;
use crate::costs::routes::Routes;
use crate::costs::steps::{message_cost, own_cost};
use be_actor::Instruction;
use be_geom::NoMemory;
use std::alloc::Global;
use std::marker::Model;

/// A body: what its instructions cost without the messages that they post, and for each of those
/// the number of the body that it goes to.
#[derive(Drop)]
pub(crate) struct Part {
    own: u64,
    posts: Vec<Option<usize>>,
}

impl Model for Part {
    ghost use Rattle.std.specs.Prelude.{ℕ, List, Option};

    ghost Value = { ℕ × List (Option ℕ) };

    ghost view = { λ part. (part.own, part.posts.items) };
}

pub(crate) fn parts(
    alloc: Global,
    routes: &Routes,
    updates: u64,
    bodies: &[BodyLine],
) -> Result<Vec<Part>, NoMemory>
    ensures { IfOk result (λ parts. parts.items
        ≡ map (part_of (routed_number routes.now) updates) bodies.now) }
{
    let mut parts = Vec::new(alloc);
    for line in bodies {
        let own = own_cost(updates, &line.program);
        let posts = posts(alloc, routes, line)?;
        parts.push(Part { own, posts })?;
    }
    Ok(parts)
}

fn posts(alloc: Global, routes: &Routes, line: &BodyLine) -> Result<Vec<Option<usize>>, NoMemory>
    ensures { IfOk result (λ posts. posts.items
        ≡ posts_of (routed_number routes.now) line.now.what line.now.program) }
{
    let mut posts = Vec::new(alloc);
    for step in &line.program.steps {
        add_post(&mut posts, routes, line.what, step)?;
    }
    Ok(posts)
}

/// A forwarded message keeps the word of its body.
fn add_post(
    posts: &mut Vec<Option<usize>>,
    routes: &Routes,
    word: u32,
    step: &Instruction,
) -> Result<(), NoMemory>
    ensures { OnOk result (posts.new.items
        ≡ posts.old.items ++ posts_of_step (routed_number routes.now) word step.now) }
{
    match step {
        Instruction::Post(window, target, draft) => {
            posts.push(routes.body(*window, *target, draft.what))?;
        }
        Instruction::Forward(window, target) => {
            posts.push(routes.body(*window, *target, word))?;
        }
        Instruction::Note(_)
        | Instruction::Send(..)
        | Instruction::Reply(_)
        | Instruction::Lock(_)
        | Instruction::Unlock
        | Instruction::Flush
        | Instruction::Sync
        | Instruction::Draw(_) => {}
    }
    Ok(())
}

/// What the instructions of each body cost where its message has hop 0.
pub(crate) fn costs(alloc: Global, parts: &[Part]) -> Result<Vec<u64>, NoMemory>
    ensures { IfOk result (λ costs. costs.items ≡ table 7 parts.now) }
{
    let mut costs = last_costs(alloc, parts)?;
    for _hop in 0..7u8 {
        costs = costs_before(alloc, parts, &costs)?;
    }
    Ok(costs)
}

/// At hop 7, from where every post is refused.
fn last_costs(alloc: Global, parts: &[Part]) -> Result<Vec<u64>, NoMemory>
    ensures { IfOk result (λ costs. costs.items ≡ map last_cost parts.now) }
{
    let mut costs = Vec::new(alloc);
    for part in parts {
        costs.push(part.own.saturating_add(part.posts.len() as u64))?;
    }
    Ok(costs)
}

/// At the hop before the one with these costs.
fn costs_before(alloc: Global, parts: &[Part], behind: &[u64]) -> Result<Vec<u64>, NoMemory>
    ensures { IfOk result (λ costs. costs.items ≡ map (cost_before behind.now) parts.now) }
{
    let mut costs = Vec::new(alloc);
    for part in parts {
        costs.push(part.cost(behind))?;
    }
    Ok(costs)
}

impl Part {
    fn cost(&self, behind: &[u64]) -> u64
        ensures { result ≡ cost_before behind.now self.now }
    {
        let mut cost = self.own;
        for body in &self.posts {
            let message = message_cost(behind, *body).saturating_add(1);
            cost = cost.saturating_add(message);
        }
        cost
    }
}
