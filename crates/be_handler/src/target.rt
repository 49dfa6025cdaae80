ghost use Rattle.std.specs.Prelude.{◌≡◌};
ghost use Rattle.be_handler.specs.Routes.{same_target, parent_target};

use be_message::Target;

/// Whether the two name one handler.
pub(crate) fn same_target(one: Target, other: Target) -> bool
    ensures { result ≡ same_target one other }
{
    match (one, other) {
        (Target::Window, Target::Window) => true,
        (Target::View(v), Target::View(u)) => v == u,
        (Target::Plain(h), Target::Plain(g)) => h == g,
        (Target::Window, Target::View(_) | Target::Plain(_)) => false,
        (Target::View(_), Target::Window | Target::Plain(_)) => false,
        (Target::Plain(_), Target::Window | Target::View(_)) => false,
    }
}

/// A view's next handler: its parent, or the window above the root.
pub(crate) fn parent_target(parent: Option<u16>) -> Target
    ensures { result ≡ parent_target parent }
{
    match parent {
        Some(view) => Target::View(view),
        None => Target::Window,
    }
}
