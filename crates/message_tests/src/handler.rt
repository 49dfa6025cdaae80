use be_handler::{Chain, ChainFault, Route, Rule};
use be_message::Target;
use std::alloc::Global;
use std::process::Abort;
use std::test::Fail;

const ROOT: Target = Target::View(0);

const LIST: Target = Target::View(1);

const ITEM: Target = Target::View(2);

const HELPER: Target = Target::Plain(0);

const KEYS: Target = Target::Plain(1);

/// Three views, each within the one before, a plain handler in front of the window and one in front
/// of the innermost view. The window has a body for 1 and 2, the second view for 2, and the helper
/// for 3.
fn window(alloc: Global) -> Result<Chain, ChainFault> {
    let mut chain = Chain::new(alloc);
    chain.add_view(None)?;
    chain.add_view(Some(0))?;
    chain.add_view(Some(1))?;
    chain.add_plain(Target::Window)?;
    chain.add_plain(ITEM)?;
    for (target, what) in [
        (Target::Window, 1),
        (Target::Window, 2),
        (LIST, 2),
        (HELPER, 3),
    ] {
        chain.add_body(target, what)?;
    }
    Ok(chain)
}

const OWN: Option<Target> = Some(HELPER);

const TO_HELPER: Rule = Rule::Redirect(HELPER);

const TO_KEYS: Rule = Rule::Redirect(KEYS);

/// A filter: whose list it is in, the word that it matches, and what it answers.
type FilterLine = (Option<Target>, Option<u32>, Rule);

fn route_by(
    alloc: Global,
    filters: &[FilterLine],
    what: u32,
    target: Target,
) -> Result<Route, ChainFault> {
    let mut chain = window(alloc)?;
    for (list, word, rule) in filters {
        chain.add_filter(*list, *word, *rule)?;
    }
    Ok(chain.route(what, target))
}

const UNFILTERED: [(u32, Target, Route); 14] = [
    (1, Target::Window, Route::Handler(Target::Window)),
    (1, ROOT, Route::Handler(Target::Window)),
    (1, ITEM, Route::Handler(Target::Window)),
    (2, ITEM, Route::Handler(LIST)),
    (2, LIST, Route::Handler(LIST)),
    (2, ROOT, Route::Handler(Target::Window)),
    (2, HELPER, Route::Handler(Target::Window)),
    (2, KEYS, Route::Handler(LIST)),
    (3, HELPER, Route::Handler(HELPER)),
    (3, KEYS, Route::Unknown),
    (3, ITEM, Route::Unknown),
    (4, Target::Window, Route::Unknown),
    (1, Target::View(3), Route::Unknown),
    (1, Target::Plain(2), Route::Unknown),
];

#[test]
fn routes_without_filters(rt: HostRuntime) -> Result<(), Fail> {
    for (what, target, route) in &UNFILTERED {
        same!(rt; route_by(rt.alloc(), &[], *what, *target)?, *route, (*what, *target));
    }
    Ok(())
}

const FILTERED: [([FilterLine; 2], u32, Target, Route); 12] = [
    // a redirection, whose target then skips, or passes
    (
        [(None, Some(1), TO_HELPER), (OWN, Some(1), Rule::Skip)],
        1,
        Target::Window,
        Route::Skipped,
    ),
    (
        [(None, Some(1), TO_HELPER), (OWN, Some(1), Rule::Pass)],
        1,
        Target::Window,
        Route::Handler(Target::Window),
    ),
    // every word is skipped, also behind a redirection
    (
        [(None, None, Rule::Pass), (None, None, Rule::Skip)],
        3,
        HELPER,
        Route::Skipped,
    ),
    (
        [(None, None, TO_HELPER), (None, Some(3), Rule::Skip)],
        3,
        ROOT,
        Route::Skipped,
    ),
    // a list redirects once
    (
        [(None, Some(3), TO_HELPER), (None, Some(3), TO_KEYS)],
        3,
        ROOT,
        Route::Handler(HELPER),
    ),
    (
        [(None, Some(2), TO_KEYS), (None, None, TO_HELPER)],
        2,
        ROOT,
        Route::Handler(LIST),
    ),
    // the own list of the target that was left redirects again, and no further list runs
    (
        [(None, Some(2), TO_HELPER), (OWN, None, TO_KEYS)],
        2,
        ROOT,
        Route::Handler(LIST),
    ),
    (
        [
            (None, Some(2), TO_HELPER),
            (OWN, None, Rule::Redirect(HELPER)),
        ],
        2,
        ROOT,
        Route::Handler(Target::Window),
    ),
    (
        [(OWN, None, TO_KEYS), (Some(KEYS), None, Rule::Skip)],
        2,
        HELPER,
        Route::Handler(LIST),
    ),
    // own filters of another handler, of the first target, and other words don't count
    (
        [(OWN, None, Rule::Skip), (Some(KEYS), None, Rule::Skip)],
        2,
        ITEM,
        Route::Handler(LIST),
    ),
    (
        [(Some(ROOT), None, Rule::Skip), (None, None, TO_HELPER)],
        3,
        ROOT,
        Route::Handler(HELPER),
    ),
    (
        [(None, Some(2), Rule::Skip), (OWN, Some(1), Rule::Skip)],
        3,
        HELPER,
        Route::Handler(HELPER),
    ),
];

#[test]
fn routes_through_filters(rt: HostRuntime) -> Result<(), Fail> {
    for (filters, what, target, route) in &FILTERED {
        let found = route_by(rt.alloc(), filters, *what, *target)?;
        same!(rt; found, *route, (*filters, *what, *target));
    }
    Ok(())
}

/// What is to be added to a window's handlers.
#[derive(Clone, Copy, Debug)]
enum Added {
    View(Option<u16>),
    Plain(Target),
    Filter(Option<Target>, Rule),
    Body(Target, u32),
}

fn add(chain: &mut Chain, added: Added) -> Result<(), ChainFault> {
    match added {
        Added::View(parent) => chain.add_view(parent),
        Added::Plain(next) => chain.add_plain(next),
        Added::Filter(list, rule) => chain.add_filter(list, None, rule),
        Added::Body(target, what) => chain.add_body(target, what),
    }
}

const NO_TARGET: Result<(), ChainFault> = Err(ChainFault::NoTarget);

const TOO_MANY: Result<(), ChainFault> = Err(ChainFault::TooMany);

const NOT_THERE: [(Added, Result<(), ChainFault>); 15] = [
    (Added::View(Some(0)), NO_TARGET),
    (Added::View(None), Ok(())),
    (Added::View(None), NO_TARGET),
    (Added::View(Some(1)), NO_TARGET),
    (Added::Plain(LIST), NO_TARGET),
    (Added::Plain(HELPER), NO_TARGET),
    (Added::Plain(ROOT), Ok(())),
    (Added::Filter(Some(LIST), Rule::Pass), NO_TARGET),
    (Added::Filter(None, Rule::Redirect(LIST)), NO_TARGET),
    (Added::Body(LIST, 1), NO_TARGET),
    (Added::Filter(Some(KEYS), Rule::Pass), NO_TARGET),
    (Added::Filter(None, Rule::Redirect(KEYS)), NO_TARGET),
    (Added::Body(KEYS, 1), NO_TARGET),
    (Added::Filter(Some(HELPER), Rule::Redirect(ROOT)), Ok(())),
    (Added::Body(HELPER, 1), Ok(())),
];

#[test]
fn handlers_that_are_not_there(rt: HostRuntime) {
    let mut chain = Chain::new(rt.alloc());
    for (added, due) in &NOT_THERE {
        same!(rt; add(&mut chain, *added), *due, *added);
    }
    same!(rt; chain.route(1, HELPER), Route::Unknown);
}

/// Each is added so many times, and then once more.
const LIMITS: [(Added, u32); 4] = [
    (Added::Plain(ROOT), 16),
    (Added::Filter(None, Rule::Pass), 32),
    (Added::Filter(Some(ROOT), Rule::Pass), 32),
    (Added::Filter(Some(KEYS), Rule::Pass), 32),
];

fn assert_limit(rt: &impl Abort, chain: &mut Chain, added: Added, most: u32) {
    for count in 0..most {
        same!(rt; add(chain, added), Ok(()), (added, count));
    }
    same!(rt; add(chain, added), TOO_MANY, added);
}

/// Asserts that a window has 32 views, each within the one before.
fn assert_views(rt: &impl Abort, chain: &mut Chain) {
    same!(rt; chain.add_view(None), Ok(()));
    for parent in 0..31 {
        same!(rt; chain.add_view(Some(parent)), Ok(()), parent);
    }
    same!(rt; chain.add_view(Some(31)), TOO_MANY);
    same!(rt; chain.add_view(Some(32)), NO_TARGET);
}

/// Asserts that a window has 512 bodies.
fn assert_bodies(rt: &impl Abort, chain: &mut Chain) {
    for what in 0..512 {
        same!(rt; chain.add_body(ITEM, what), Ok(()), what);
    }
    same!(rt; chain.add_body(ITEM, 512), TOO_MANY);
    same!(rt; chain.add_body(ROOT, 511), TOO_MANY);
    same!(rt; chain.add_body(ITEM, 511), Ok(()));
}

#[test]
fn limits_of_a_window(rt: HostRuntime) {
    let mut chain = Chain::new(rt.alloc());
    assert_views(&rt, &mut chain);
    for (added, most) in &LIMITS {
        assert_limit(&rt, &mut chain, *added, *most);
    }
    assert_bodies(&rt, &mut chain);
    same!(rt; chain.route(511, Target::View(31)), Route::Handler(ITEM));
    same!(rt; chain.route(511, LIST), Route::Unknown);
}
