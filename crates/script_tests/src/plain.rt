ghost use Rattle.std.specs.Prelude.{◌≡◌, length};
ghost use Rattle.std.specs.Bool.{OnTrue};
ghost use Rattle.std.specs.List.{list_all};
ghost use Rattle.script_tests.specs.Plain.{is_near, leads_near, is_plain_view, is_plain_filter};
ghost use Rattle.script_tests.specs.Plain.{are_plain_bodies, is_plain_draw};
ghost use Rattle.be_script.specs.Routable.{IsRoutable};
ghost use Rattle.be_script.specs.Script.{declared_by};

use be_handler::Rule;
use be_message::Target;
use be_script::{BodyLine, DrawLine, FilterLine, Script, ViewLine};

/// Whether the script is seen at once to have ways for its messages.
pub fn is_plain(script: &Script) -> bool
    ensures { OnTrue result (IsRoutable (declared_by script.now)) }
{
    let windows = script.windows.len();
    if windows > 32 || script.views.len() >= 32 || script.handlers.len() >= 1 {
        return false;
    }
    if script.filters.len() > 32 || script.bodies.len() > 512 {
        return false;
    }
    if !are_plain_views(windows, &script.views) {
        return false;
    }
    if !are_plain_filters(windows, &script.filters) {
        return false;
    }
    if !are_plain_bodies(windows, &script.bodies) {
        return false;
    }
    are_plain_draws(windows, &script.draws)
}

fn are_plain_views(windows: usize, lines: &[ViewLine]) -> bool
    ensures { result ≡ list_all (is_plain_view windows) lines.now }
{
    lines.iter().all(|line| usize::from(line.window) < windows && line.parent == 0)
}

fn are_plain_filters(windows: usize, lines: &[FilterLine]) -> bool
    ensures { result ≡ list_all (is_plain_filter windows) lines.now }
{
    lines.iter().all(|line| {
        usize::from(line.window) < windows && line.list.is_none() && leads_near(line.rule)
    })
}

fn are_plain_bodies(windows: usize, lines: &[BodyLine]) -> bool
    ensures { result ≡ are_plain_bodies windows 0 lines.now }
{
    let mut low: u64 = 0;
    for line in lines {
        let is_plain = usize::from(line.window) < windows
            && is_near(line.target)
            && low <= u64::from(line.what);
        if !is_plain {
            return false;
        }
        low = u64::from(line.what) + 1;
    }
    true
}

fn are_plain_draws(windows: usize, lines: &[DrawLine]) -> bool
    ensures { result ≡ list_all (is_plain_draw windows) lines.now }
{
    lines.iter().all(|line| usize::from(line.window) < windows)
}

fn is_near(target: Target) -> bool
    ensures { result ≡ is_near target }
{
    match target {
        Target::Window => true,
        Target::View(view) => view == 0,
        Target::Plain(_) => false,
    }
}

fn leads_near(rule: Rule) -> bool
    ensures { result ≡ leads_near rule }
{
    match rule {
        Rule::Skip | Rule::Pass => true,
        Rule::Redirect(target) => is_near(target),
    }
}
