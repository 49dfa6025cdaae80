//! How messages find their handlers in the windows of the script.
ghost use Rattle.std.specs.Prelude.{◌≡◌, true, Some, None, IsOk, IfOk, OnOk, IfErr, ◌↔◌};
ghost use Rattle.be_handler.specs.Growth.{empty_chain, with_filter, with_new_body};
ghost use Rattle.be_handler.specs.Growth.{with_plain, with_view};
ghost use Rattle.be_handler.specs.declared.fault.ChainFault.{ChainFault};
ghost use Rattle.be_ready.specs.Chains.{chains_of};
ghost use Rattle.be_script.specs.Limits.{IsWithinLimits};
ghost use Rattle.be_script.specs.Routable.{IsRoutable, bodies_before, filters_before};
ghost use Rattle.be_script.specs.Routable.{can_add_body, can_add_filter, can_add_plain};
ghost use Rattle.be_script.specs.Routable.{can_add_view, handlers_before, views_before};
ghost use Rattle.be_script.specs.Script.{declared_by};
ghost use Rattle.be_script.specs.Windows.{chain_of, declared_body, declared_filter};

use be_geom::NoMemory;
use be_handler::{Chain, ChainFault};
use be_message::Target;
use be_script::{BodyLine, FilterLine, Script, limits_make_routable};
use std::alloc::Global;

/// The handlers, filters and bodies of each window, in order: what `message_in_front` finds its way
/// by. For each window it looks at each view, handler, filter and body of the script once.
pub fn chains_of(alloc: Global, script: &Script) -> Result<Vec<Chain>, NoMemory>
    requires { IsWithinLimits (declared_by script.now) }
    ensures { IfOk result (λ chains. chains.items ≡ chains_of (declared_by script.now)) }
{
    let windows = script.windows.len();
    let mut chains = Vec::with_capacity(alloc, windows)?;
    for w in 0..windows as u16 {
        chains.push(chain_in(alloc, script, w)?)?;
    }
    Ok(chains)
}

/// The handlers, filters and bodies of window `w`.
fn chain_in(alloc: Global, script: &Script, w: u16) -> Result<Chain, NoMemory>
    requires { IsWithinLimits (declared_by script.now) }
    ensures { IfOk result (λ chain. chain ≡ chain_of (declared_by script.now) w) }
{
    limits_make_routable(script);
    let mut chain = with_root(alloc)?;
    add_views(&mut chain, script, w)?;
    add_plains(&mut chain, script, w)?;
    add_filters(&mut chain, script, w)?;
    add_bodies(&mut chain, script, w)?;
    Ok(chain)
}

/// A window with its root alone.
fn with_root(alloc: Global) -> Result<Chain, NoMemory>
    ensures { IfOk result (λ chain. chain ≡ with_view empty_chain None) }
{
    let mut chain = Chain::new(alloc);
    added(chain.add_view(None))?;
    Ok(chain)
}

fn add_views(chain: &mut Chain, script: &Script, w: u16) -> Result<(), NoMemory>
    requires routable { IsRoutable (declared_by script.now) }
    requires before { chain.old ≡ chain_of (views_before (declared_by script.now) 0) w }
    ensures { OnOk result (chain.new ≡ chain_of (handlers_before (declared_by script.now) 0) w) }
{
    for line in &script.views {
        if line.window == w {
            add_view(chain, line.parent)?;
        }
    }
    Ok(())
}

fn add_plains(chain: &mut Chain, script: &Script, w: u16) -> Result<(), NoMemory>
    requires routable { IsRoutable (declared_by script.now) }
    requires before { chain.old ≡ chain_of (handlers_before (declared_by script.now) 0) w }
    ensures { OnOk result (chain.new ≡ chain_of (filters_before (declared_by script.now) 0) w) }
{
    for line in &script.handlers {
        if line.window == w {
            add_plain(chain, line.next)?;
        }
    }
    Ok(())
}

fn add_filters(chain: &mut Chain, script: &Script, w: u16) -> Result<(), NoMemory>
    requires routable { IsRoutable (declared_by script.now) }
    requires before { chain.old ≡ chain_of (filters_before (declared_by script.now) 0) w }
    ensures { OnOk result (chain.new ≡ chain_of (bodies_before (declared_by script.now) 0) w) }
{
    for line in &script.filters {
        if line.window == w {
            add_filter(chain, line)?;
        }
    }
    Ok(())
}

fn add_bodies(chain: &mut Chain, script: &Script, w: u16) -> Result<(), NoMemory>
    requires routable { IsRoutable (declared_by script.now) }
    requires before { chain.old ≡ chain_of (bodies_before (declared_by script.now) 0) w }
    ensures { OnOk result (chain.new ≡ chain_of (declared_by script.now) w) }
{
    for line in &script.bodies {
        if line.window == w {
            add_body(chain, line)?;
        }
    }
    Ok(())
}

fn add_view(chain: &mut Chain, parent: u16) -> Result<(), NoMemory>
    requires { can_add_view chain.old parent ≡ true }
    ensures { OnOk result (chain.new ≡ with_view chain.old (Some parent)) }
{
    added(chain.add_view(Some(parent)))
}

fn add_plain(chain: &mut Chain, next: Target) -> Result<(), NoMemory>
    requires { can_add_plain chain.old next ≡ true }
    ensures { OnOk result (chain.new ≡ with_plain chain.old next) }
{
    added(chain.add_plain(next))
}

fn add_filter(chain: &mut Chain, line: &FilterLine) -> Result<(), NoMemory>
    requires { can_add_filter chain.old (declared_filter line.now) ≡ true }
    ensures { OnOk result (chain.new ≡ with_filter chain.old (declared_filter line.now)) }
{
    added(chain.add_filter(line.list, line.what, line.rule))
}

fn add_body(chain: &mut Chain, line: &BodyLine) -> Result<(), NoMemory>
    requires { can_add_body chain.old (declared_body line.now) ≡ true }
    ensures { OnOk result (chain.new ≡ with_new_body chain.old line.now.target line.now.what) }
{
    added(chain.add_body(line.target, line.what))
}

/// Of what is there and within its limits, only memory can be wanting.
fn added(addition: Result<(), ChainFault>) -> Result<(), NoMemory>
    requires { IfErr addition (λ fault. fault ≡ ChainFault.NoMemory) }
    ensures { IsOk result ↔ IsOk addition }
{
    match addition {
        Ok(()) => Ok(()),
        Err(ChainFault::NoMemory) => Err(NoMemory),
        Err(ChainFault::NoTarget | ChainFault::TooMany) => unreachable!(),
    }
}
