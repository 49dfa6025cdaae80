ghost use Rattle.std.specs.Prelude.{◌≡◌, ◌++◌, IfOk, OnOk};
ghost use Rattle.be_views.specs.Trees.{preorder, preorder_from};

use be_geom::NoMemory;
use be_views::ViewTree;
use std::alloc::Global;

/// All views of a window, each before its children, and siblings in order of declaration.
pub(crate) fn preorder(alloc: Global, tree: &ViewTree) -> Result<Vec<u16>, NoMemory>
    ensures { IfOk result (λ views. views.items ≡ preorder tree.now) }
{
    let mut views = Vec::with_capacity(alloc, tree.len())?;
    add_below(tree, tree.len(), 0, &mut views)?;
    Ok(views)
}

/// Adds a view and those below it, so many levels at most.
fn add_below(
    tree: &ViewTree,
    levels: usize,
    view: u16,
    views: &mut Vec<u16>,
) -> Result<(), NoMemory>
    ensures { OnOk result (views.new.items
        ≡ views.old.items ++ preorder_from levels tree.now view) }
{
    if levels == 0 {
        return Ok(());
    }
    views.push(view)?;
    for child in 0..tree.len() as u16 {
        if tree.parent(child) == Some(view) {
            add_below(tree, levels - 1, child, views)?;
        }
    }
    Ok(())
}
