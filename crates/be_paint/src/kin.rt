ghost use Rattle.std.specs.Prelude.{◌≡◌};
ghost use Rattle.be_views.specs.Trees.{lies_within, is_at_or_below};

use be_views::ViewTree;

/// Whether a view is another one, or lies in it at some depth. It takes a step for each view
/// between them.
#[tactic(auto, unfolding(be_views::specs::Trees::is_at_or_below))]
pub(crate) fn is_at_or_below(tree: &ViewTree, above: u16, view: u16) -> bool
    ensures { result ≡ is_at_or_below tree.now above view }
{
    lies_within(tree.len(), tree, above, view)
}

/// The same, in so many steps at most.
fn lies_within(steps: usize, tree: &ViewTree, above: u16, view: u16) -> bool
    ensures { result ≡ lies_within steps tree.now above view }
{
    if view == above {
        return true;
    }
    if steps == 0 {
        return false;
    }
    match tree.parent(view) {
        Some(parent) => lies_within(steps - 1, tree, above, parent),
        None => false,
    }
}
