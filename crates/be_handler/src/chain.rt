ghost use Rattle.std.specs.Prelude.{◌≡◌, ◌<◌, ◌≤◌, ◌↔◌, vec_len, vec_capacity, slice_index_or, ◌+◌};
ghost use Rattle.std.specs.Prelude.{true, false, [], length, OnOk, OnErr};
ghost use Rattle.be_handler.specs.Routes.{next_handler, common_filters, own_filters, filtered};
ghost use Rattle.be_handler.specs.Routes.{has_body, handler_from, route_of};
ghost use Rattle.be_handler.specs.Words.{has_word, AddsWord};
ghost use Rattle.be_handler.specs.Growth.{with_new_body, empty_chain, is_there, is_parent};
ghost use Rattle.be_handler.specs.Growth.{is_place, listed, with_view, with_plain, with_filter};
ghost use Rattle.be_handler.specs.Growth.{with_body};

use crate::body::Body;
use crate::fault::ChainFault;
use crate::filter::{Filter, filtered};
use crate::target::parent_target;
use crate::words::Words;
use crate::{Route, Rule};
use be_geom::NoMemory;
use be_message::Target;
use std::alloc::Global;
use std::marker::Model;

/// How many views, plain handlers and bodies a window may have, and how many filters a list.
const MAX_VIEWS: usize = 32;

const MAX_PLAINS: usize = 16;

const MAX_BODIES: usize = 512;

const MAX_FILTERS: usize = 32;

/// A window's handlers, each with the next one, the filters in front of them and the bodies that
/// they have.
#[derive(Debug, Drop)]
pub struct Chain {
    parents: Vec<Option<u16>>,
    nexts: Vec<Target>,
    filters: Vec<Filter>,
    bodies: Vec<Body>,
    /// The words of the bodies again, by handler.
    window_words: Words,
    view_words: Vec<Words>,
    plain_words: Vec<Words>,
}

impl Model for Chain {
    ghost use Rattle.be_handler.specs.Routes as routes;
    ghost use Rattle.be_handler.specs.Indexed.{IsIndexed};

    ghost Value = { routes.Chain };

    ghost view = { λ c. record {
      parents = c.parents.items;
      nexts = c.nexts.items;
      filters = c.filters.items;
      bodies = c.bodies.items;
    } };

    ghost invariant = { λ c. IsIndexed c.parents.items c.nexts.items c.bodies.items
        c.window_words c.view_words.items c.plain_words.items };
}

impl Chain {
    /// A window that has no view yet.
    pub fn new(alloc: Global) -> Chain
        ensures { result ≡ empty_chain }
    {
        Chain {
            parents: Vec::new(alloc),
            nexts: Vec::new(alloc),
            filters: Vec::new(alloc),
            bodies: Vec::new(alloc),
            window_words: Words::new(alloc),
            view_words: Vec::new(alloc),
            plain_words: Vec::new(alloc),
        }
    }

    /// Adds a view, whose number is the count of those before it: `BView::AddChild`. The first one
    /// is the root, which alone has no parent.
    pub fn add_view(&mut self, parent: Option<u16>) -> Result<(), ChainFault>
        ensures no_target { (result ≡ Err ChainFault.NoTarget)
            ↔ (is_parent self.old parent ≡ false) }
        ensures too_many { (result ≡ Err ChainFault.TooMany)
            ↔ ((is_parent self.old parent ≡ true) × (32 ≤ length self.old.parents)) }
        ensures added { OnOk result (self.new ≡ with_view self.old parent) }
        ensures err { OnErr result (self.new ≡ self.old) }
    {
        if !self.is_parent(parent) {
            return Err(ChainFault::NoTarget);
        }
        if self.parents.len() >= MAX_VIEWS {
            return Err(ChainFault::TooMany);
        }
        let words = Words::new(*self.parents.allocator());
        make_room(&mut self.parents, &mut self.view_words)?;
        self.parents.push(parent).unwrap();
        self.view_words.push(words).unwrap();
        Ok(())
    }

    /// Adds a plain handler, whose number is the count of those before it:
    /// `BHandler::SetNextHandler`.
    pub fn add_plain(&mut self, next: Target) -> Result<(), ChainFault>
        ensures no_target { (result ≡ Err ChainFault.NoTarget) ↔ (is_there self.old next ≡ false) }
        ensures too_many { (result ≡ Err ChainFault.TooMany)
            ↔ ((is_there self.old next ≡ true) × (16 ≤ length self.old.nexts)) }
        ensures added { OnOk result (self.new ≡ with_plain self.old next) }
        ensures err { OnErr result (self.new ≡ self.old) }
    {
        if !self.is_there(next) {
            return Err(ChainFault::NoTarget);
        }
        if self.nexts.len() >= MAX_PLAINS {
            return Err(ChainFault::TooMany);
        }
        let words = Words::new(*self.nexts.allocator());
        make_room(&mut self.nexts, &mut self.plain_words)?;
        self.nexts.push(next).unwrap();
        self.plain_words.push(words).unwrap();
        Ok(())
    }

    /// Adds a filter behind the others of its list, a handler's own or the common one:
    /// `BHandler::AddFilter`, `BLooper::AddCommonFilter`. Without a word it matches every word.
    pub fn add_filter(
        &mut self,
        list: Option<Target>,
        what: Option<u32>,
        rule: Rule,
    ) -> Result<(), ChainFault>
        ensures no_target { (result ≡ Err ChainFault.NoTarget)
            ↔ (is_place self.old list rule ≡ false) }
        ensures too_many { (result ≡ Err ChainFault.TooMany)
            ↔ ((is_place self.old list rule ≡ true) × (32 ≤ length (listed self.old list))) }
        ensures added { OnOk result
            (self.new ≡ with_filter self.old record { list = list; what = what; rule = rule }) }
        ensures err { OnErr result (self.new ≡ self.old) }
    {
        if !self.is_place(list, rule) {
            return Err(ChainFault::NoTarget);
        }
        if self.count_listed(list) >= MAX_FILTERS {
            return Err(ChainFault::TooMany);
        }
        self.filters
            .push(Filter::new(list, what, rule))
            .map_err(NoMemory::from)?;
        Ok(())
    }

    /// Adds a body: what the handler's `MessageReceived` does for a word. One that is there already
    /// stays.
    pub fn add_body(&mut self, target: Target, what: u32) -> Result<(), ChainFault>
        ensures no_target { (result ≡ Err ChainFault.NoTarget)
            ↔ (is_there self.old target ≡ false) }
        ensures too_many { (result ≡ Err ChainFault.TooMany)
            ↔ ((is_there self.old target ≡ true) × (has_body self.old what target ≡ false)
            × (512 ≤ length self.old.bodies)) }
        ensures added { OnOk result (self.new ≡ with_body self.old target what) }
        ensures err { OnErr result (self.new ≡ self.old) }
    {
        if !self.is_there(target) {
            return Err(ChainFault::NoTarget);
        }
        if self.has_body(target, what) {
            return Ok(());
        }
        if self.bodies.len() >= MAX_BODIES {
            return Err(ChainFault::TooMany);
        }
        match target {
            Target::Window => self.add_window_body(what)?,
            Target::View(view) => self.add_view_body(view, what)?,
            Target::Plain(plain) => self.add_plain_body(plain, what)?,
        }
        Ok(())
    }

    /// Where a message for a target goes: first through the common filters, then through the own
    /// ones of the target that they left, then to the first handler from there on that has a body
    /// for its word.
    pub fn route(&self, what: u32, target: Target) -> Route
        ensures { result ≡ route_of self.now what target }
    {
        let Some(left) = filtered(&self.filters, None, what, target) else {
            return Route::Skipped;
        };
        match filtered(&self.filters, Some(left), what, left) {
            Some(handler) => self.handler_from(what, handler),
            None => Route::Skipped,
        }
    }

    fn handler_from(&self, what: u32, target: Target) -> Route
        ensures { let c = self.now in result
            ≡ handler_from (length c.parents + length c.nexts + 1) c what target }
    {
        let mut at = target;
        'up: for _step in 0..self.parents.len() + self.nexts.len() + 1 {
            if self.has_body(at, what) {
                return Route::Handler(at);
            }
            let Some(next) = self.next(at) else {
                return Route::Unknown;
            };
            at = next;
        }
        Route::Unknown
    }

    fn next(&self, target: Target) -> Option<Target>
        ensures { result ≡ next_handler self.now target }
    {
        match target {
            Target::Window => None,
            Target::View(view) => self
                .parents
                .get(usize::from(view))
                .copied()
                .map(parent_target),
            Target::Plain(plain) => self.nexts.get(usize::from(plain)).copied(),
        }
    }

    /// Whether a handler has a body for a word; one that isn't there has none.
    pub fn has_body(&self, target: Target, what: u32) -> bool
        ensures { result ≡ has_body self.now what target }
    {
        match target {
            Target::Window => self.window_words.has(what),
            Target::View(view) => has_word_at(&self.view_words, usize::from(view), what),
            Target::Plain(plain) => has_word_at(&self.plain_words, usize::from(plain), what),
        }
    }

    fn add_window_body(&mut self, what: u32) -> Result<(), NoMemory>
        ensures added { OnOk result (self.new ≡ with_new_body self.old Target.Window what) }
        ensures err { OnErr result (self.new ≡ self.old) }
    {
        self.bodies.reserve(1)?;
        self.window_words.add(what)?;
        self.bodies.push(Body::new(Target::Window, what)).unwrap();
        Ok(())
    }

    fn add_view_body(&mut self, view: u16, what: u32) -> Result<(), NoMemory>
        requires { view < length self.old.parents }
        ensures added { OnOk result (self.new ≡ with_new_body self.old (Target.View view) what) }
        ensures err { OnErr result (self.new ≡ self.old) }
    {
        self.bodies.reserve(1)?;
        add_word_at(&mut self.view_words, usize::from(view), what)?;
        self.bodies
            .push(Body::new(Target::View(view), what))
            .unwrap();
        Ok(())
    }

    fn add_plain_body(&mut self, plain: u16, what: u32) -> Result<(), NoMemory>
        requires { plain < length self.old.nexts }
        ensures added { OnOk result (self.new ≡ with_new_body self.old (Target.Plain plain) what) }
        ensures err { OnErr result (self.new ≡ self.old) }
    {
        self.bodies.reserve(1)?;
        add_word_at(&mut self.plain_words, usize::from(plain), what)?;
        self.bodies
            .push(Body::new(Target::Plain(plain), what))
            .unwrap();
        Ok(())
    }

    fn is_parent(&self, parent: Option<u16>) -> bool
        ensures { result ≡ is_parent self.now parent }
    {
        match parent {
            Some(view) => usize::from(view) < self.parents.len(),
            None => self.parents.is_empty(),
        }
    }

    fn is_there(&self, target: Target) -> bool
        ensures { result ≡ is_there self.now target }
    {
        match target {
            Target::Window => true,
            Target::View(view) => usize::from(view) < self.parents.len(),
            Target::Plain(plain) => usize::from(plain) < self.nexts.len(),
        }
    }

    /// Whether the handlers of a filter are there: the one whose list it is in, and where it
    /// redirects to.
    fn is_place(&self, list: Option<Target>, rule: Rule) -> bool
        ensures { result ≡ is_place self.now list rule }
    {
        let listed = match list {
            Some(owner) => self.is_there(owner),
            None => true,
        };
        let leads = match rule {
            Rule::Redirect(target) => self.is_there(target),
            Rule::Skip | Rule::Pass => true,
        };
        listed && leads
    }

    fn count_listed(&self, list: Option<Target>) -> usize
        ensures { result ≡ length (listed self.now list) }
    {
        self.filters
            .iter()
            .filter(|filter| filter.is_in(list))
            .count()
    }
}

/// Makes room for one more handler.
fn make_room<T>(handlers: &mut Vec<T>, words: &mut Vec<Words>) -> Result<(), NoMemory>
    ensures handlers { handlers.new.items ≡ handlers.old.items }
    ensures words { words.new.items ≡ words.old.items }
    ensures handlers_room { OnOk result (vec_len handlers.new < vec_capacity handlers.new) }
    ensures words_room { OnOk result (vec_len words.new < vec_capacity words.new) }
{
    handlers.reserve(1)?;
    words.reserve(1)?;
    Ok(())
}

/// Whether the handler of this number has a body for the word.
fn has_word_at(handlers: &[Words], number: usize, what: u32) -> bool
    ensures { result ≡ has_word (slice_index_or handlers.now number []) what }
{
    match handlers.get(number) {
        Some(words) => words.has(what),
        None => false,
    }
}

/// Adds a word to those of the handler of this number.
fn add_word_at(handlers: &mut [Words], number: usize, what: u32) -> Result<(), NoMemory>
    requires { number < length handlers.old }
    ensures ok { OnOk result (AddsWord handlers.old handlers.new number what) }
    ensures err { OnErr result (handlers.new ≡ handlers.old) }
{
    let words = &mut handlers[number];
    words.add(what)
}
