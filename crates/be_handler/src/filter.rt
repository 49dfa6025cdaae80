ghost use Rattle.std.specs.Prelude.{◌≡◌, option_map, filter};
ghost use Rattle.be_handler.specs.Routes.{matches, ruled, step_of, through, filtered};
ghost use Rattle.be_handler.specs.Lists.{is_in_list};

use crate::Rule;
use crate::target::same_target;
use be_message::Target;
use std::marker::Model;

/// What a window does with messages before they are handled: `BMessageFilter`.
#[derive(Debug, Drop)]
pub struct Filter {
    /// Whose list it is in: a handler's own, or the common one.
    list: Option<Target>,
    /// The one word that it matches, or every word.
    what: Option<u32>,
    rule: Rule,
}

impl Model for Filter {
    ghost use Rattle.be_handler.specs.Routes as routes;

    ghost Value = { routes.Filter };

    ghost view = { λ f. record { list = f.list; what = f.what; rule = f.rule } };
}

impl Filter {
    /// A filter of the list of this handler, or of the common one.
    pub fn new(list: Option<Target>, what: Option<u32>, rule: Rule) -> Filter
        ensures { result ≡ record { list = list; what = what; rule = rule } }
    {
        Filter { list, what, rule }
    }

    /// Whether it is in the list of this handler, or in the common one.
    pub fn is_in(&self, list: Option<Target>) -> bool
        ensures { result ≡ is_in_list list self.now.list }
    {
        match (list, self.list) {
            (None, None) => true,
            (Some(target), Some(owner)) => same_target(owner, target),
            (None, Some(_)) => false,
            (Some(_), None) => false,
        }
    }

    /// The target after this filter, and whether the list has redirected yet; None where it skips
    /// the message.
    fn step(&self, what: u32, at: (Target, bool)) -> Option<(Target, bool)>
        ensures { result ≡ step_of what self.now at }
    {
        if !self.matches(what) {
            return Some(at);
        }
        match self.rule {
            Rule::Skip => None,
            Rule::Pass => Some(at),
            Rule::Redirect(other) => Some((if at.1 { at.0 } else { other }, true)),
        }
    }

    fn matches(&self, what: u32) -> bool
        ensures { result ≡ matches what self.now.what }
    {
        match self.what {
            Some(word) => word == what,
            None => true,
        }
    }
}

/// The target that a list of filters leaves; None where it skips the message.
pub fn filtered(
    filters: &[Filter],
    list: Option<Target>,
    what: u32,
    target: Target,
) -> Option<Target>
    ensures { result ≡ filtered what (filter (λ f. is_in_list list f.list) filters.now) target }
{
    let mut at = (target, false);
    for filter in filters {
        if filter.is_in(list) {
            at = filter.step(what, at)?;
        }
    }
    Some(at.0)
}
