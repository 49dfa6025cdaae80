ghost use Rattle.std.specs.Prelude.{◌≡◌, ℕ, ◌+◌, ◌<◌, ◌≤◌, true, ◌∷◌, IsOk, IfOk, OnOk, IfErr, ◌↔◌};
ghost use Rattle.std.specs.Prelude.{length, [], Some, None};
ghost use Rattle.be_handler.specs.Growth.{with_view, with_plain, with_filter, with_new_body};
ghost use Rattle.be_handler.specs.declared.fault.ChainFault.{ChainFault};
ghost use Rattle.be_script.specs.Routable.{IsRoutable, can_add_view, can_add_plain, can_add_filter};
ghost use Rattle.be_script.specs.Routable.{can_add_body, views_before, handlers_before};
ghost use Rattle.be_script.specs.Routable.{filters_before, bodies_before};
ghost use Rattle.be_script.specs.Routes.{routed_number, handlers_with, HasChains, HasNumbers};
ghost use Rattle.be_script.specs.Routes.{HasRoutes};
ghost use Rattle.be_script.specs.Script.{declared_by};
ghost use Rattle.be_script.specs.Windows.{declared_filter, declared_body};

use crate::costs::body_numbers::BodyNumbers;
use crate::{BodyLine, FilterLine, Script};
use be_geom::NoMemory;
use be_handler::{Chain, ChainFault, Route};
use be_message::Target;
use std::alloc::Global;

/// How a window's messages find their handlers, and how many views it has, the root among them.
#[derive(Drop)]
pub(crate) struct Handlers {
    pub(crate) chain: Chain,
    pub(crate) views: u16,
}

/// Where messages go: the handlers of each window, and the number of each body.
#[derive(Drop)]
pub(crate) struct Routes {
    pub(crate) windows: Vec<Handlers>,
    pub(crate) bodies: BodyNumbers,
}

/// Costs a few steps for each line of the script.
pub(crate) fn routes_of(alloc: Global, script: &Script) -> Result<Routes, NoMemory>
    requires { IsRoutable (declared_by script.now) }
    ensures { IfOk result (λ routes. HasRoutes (declared_by script.now) routes) }
{
    let mut windows = roots(alloc, script)?;
    add_views(&mut windows, script)?;
    add_plains(&mut windows, script)?;
    add_filters(&mut windows, script)?;
    add_bodies(&mut windows, script)?;
    let bodies = numbers(alloc, script)?;
    Ok(Routes { windows, bodies })
}

fn roots(alloc: Global, script: &Script) -> Result<Vec<Handlers>, NoMemory>
    ensures { IfOk result (λ windows.
        HasChains (views_before (declared_by script.now) 0) windows.items) }
{
    let mut windows = Vec::new(alloc);
    for _window in &script.windows {
        windows.push(Handlers::new(alloc)?)?;
    }
    Ok(windows)
}

fn add_views(windows: &mut [Handlers], script: &Script) -> Result<(), NoMemory>
    requires routable { IsRoutable (declared_by script.now) }
    requires before { HasChains (views_before (declared_by script.now) 0) windows.old }
    ensures { OnOk result (HasChains (handlers_before (declared_by script.now) 0) windows.new) }
{
    for line in &script.views {
        let handlers = &mut windows[usize::from(line.window)];
        handlers.add_view(line.parent)?;
    }
    Ok(())
}

fn add_plains(windows: &mut [Handlers], script: &Script) -> Result<(), NoMemory>
    requires routable { IsRoutable (declared_by script.now) }
    requires before { HasChains (handlers_before (declared_by script.now) 0) windows.old }
    ensures { OnOk result (HasChains (filters_before (declared_by script.now) 0) windows.new) }
{
    for line in &script.handlers {
        let handlers = &mut windows[usize::from(line.window)];
        handlers.add_plain(line.next)?;
    }
    Ok(())
}

fn add_filters(windows: &mut [Handlers], script: &Script) -> Result<(), NoMemory>
    requires routable { IsRoutable (declared_by script.now) }
    requires before { HasChains (filters_before (declared_by script.now) 0) windows.old }
    ensures { OnOk result (HasChains (bodies_before (declared_by script.now) 0) windows.new) }
{
    for line in &script.filters {
        let handlers = &mut windows[usize::from(line.window)];
        handlers.add_filter(line)?;
    }
    Ok(())
}

fn add_bodies(windows: &mut [Handlers], script: &Script) -> Result<(), NoMemory>
    requires routable { IsRoutable (declared_by script.now) }
    requires before { HasChains (bodies_before (declared_by script.now) 0) windows.old }
    ensures { OnOk result (HasChains (declared_by script.now) windows.new) }
{
    for line in &script.bodies {
        let handlers = &mut windows[usize::from(line.window)];
        handlers.add_body(line)?;
    }
    Ok(())
}

fn numbers(alloc: Global, script: &Script) -> Result<BodyNumbers, NoMemory>
    requires { IsRoutable (declared_by script.now) }
    ensures { IfOk result (λ numbers. HasNumbers script.now.bodies.items numbers) }
{
    let mut numbers = BodyNumbers::new(alloc);
    for (number, line) in script.bodies.iter().enumerate() {
        numbers.insert(line.window, line.target, line.what, number)?;
    }
    Ok(numbers)
}

impl Routes {
    /// The number of the body to which a message is routed.
    pub(crate) fn body(&self, window: u16, target: Target, what: u32) -> Option<usize>
        ensures { result ≡ routed_number self.now window target what }
    {
        let handlers = self.windows.get(usize::from(window))?;
        match handlers.chain.route(what, target) {
            Route::Handler(handler) => self.bodies.get(window, handler, what),
            Route::Skipped | Route::Unknown => None,
        }
    }
}

impl Handlers {
    /// A window with its root.
    fn new(alloc: Global) -> Result<Handlers, NoMemory>
        ensures { IfOk result (λ handlers. handlers
            ≡ handlers_with record { parents = None ∷ []; nexts = []; filters = []; bodies = [] }) }
    {
        let mut chain = Chain::new(alloc);
        added(chain.add_view(None))?;
        Ok(Handlers { chain, views: 1 })
    }

    fn add_view(&mut self, parent: u16) -> Result<(), NoMemory>
        requires counted { self.old.views ≡ length self.old.chain.parents }
        requires fits { can_add_view self.old.chain parent ≡ true }
        ensures { OnOk result (self.new ≡ handlers_with (with_view self.old.chain (Some parent))) }
    {
        added(self.chain.add_view(Some(parent)))?;
        self.views += 1;
        Ok(())
    }

    fn add_plain(&mut self, next: Target) -> Result<(), NoMemory>
        requires { can_add_plain self.old.chain next ≡ true }
        ensures { OnOk result (self.new
            ≡ record self.old { chain = with_plain self.old.chain next }) }
    {
        added(self.chain.add_plain(next))
    }

    fn add_filter(&mut self, line: &FilterLine) -> Result<(), NoMemory>
        requires { can_add_filter self.old.chain (declared_filter line.now) ≡ true }
        ensures { OnOk result (self.new
            ≡ record self.old { chain = with_filter self.old.chain (declared_filter line.now) }) }
    {
        added(self.chain.add_filter(line.list, line.what, line.rule))
    }

    fn add_body(&mut self, line: &BodyLine) -> Result<(), NoMemory>
        requires { can_add_body self.old.chain (declared_body line.now) ≡ true }
        ensures { OnOk result (self.new ≡ record self.old {
          chain = with_new_body self.old.chain line.now.target line.now.what;
        }) }
    {
        added(self.chain.add_body(line.target, line.what))
    }
}

/// Of what is there and within its limits, only memory can be wanting.
fn added(addition: Result<(), ChainFault>) -> Result<(), NoMemory>
    requires { IfErr addition (λ fault. fault ≡ ChainFault.NoMemory) }
    ensures { IsOk result ↔ IsOk addition }
{
    match addition {
        Ok(()) => Ok(()),
        Err(ChainFault::NoMemory) => Err(NoMemory),
        Err(ChainFault::NoTarget | ChainFault::TooMany) => unreachable!(),
    }
}
