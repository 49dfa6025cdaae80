ghost use Rattle.std.specs.Prelude.{◌≡◌, ◌<◌, ◌++◌, ◌∷◌, Some, IfOk, OnOk, length, slice_get};
ghost use Rattle.std.specs.Fmt.{decimal, signed_decimal};
ghost use Rattle.be_trees.specs.TreeText.{across_word, down_word, size_words, tree_text};
ghost use Rattle.be_trees.specs.TreeText.{view_words};
ghost use Rattle.be_views.specs.Trees.{View};
ghost use Rattle.be_written.specs.Lines.{behind, line_of};
ghost use Rattle.be_written.specs.TraceText.{edge_words};

use be_follow::{Across, Down};
use be_geom::{NoMemory, Rect};
use be_lex::{write_natural, write_number};
use be_views::ViewTree;
use std::alloc::Global;

/// The lines of a tree: its root's size, and each further view.
pub fn write_tree(alloc: Global, tree: &ViewTree) -> Result<Vec<u8>, NoMemory>
    ensures { IfOk result (λ text. text.items ≡ tree_text tree.now) }
{
    let mut text = Vec::new(alloc);
    let count = tree.len() as u16;
    write_size(&mut text, tree)?;
    for view in 1..count {
        write_view(&mut text, tree, view)?;
    }
    Ok(text)
}

fn write_size(text: &mut Vec<u8>, tree: &ViewTree) -> Result<(), NoMemory>
    requires { 0 < length tree.now }
    ensures { OnOk result ((root : View) → slice_get tree.now 0 ≡ Some root
        → text.new.items ≡ text.old.items ++ line_of (size_words root.frame)) }
{
    let root = tree.frame_of(0).unwrap();
    text.extend_from_slice(b"size")?;
    write_edge(text, root.right)?;
    write_edge(text, root.bottom)?;
    text.push(b'\n')?;
    Ok(())
}

fn write_view(text: &mut Vec<u8>, tree: &ViewTree, number: u16) -> Result<(), NoMemory>
    requires { number < length tree.now }
    ensures { OnOk result ((view : View) → slice_get tree.now number ≡ Some view
        → text.new.items ≡ text.old.items ++ line_of (view_words number view)) }
{
    let frame = tree.frame_of(number).unwrap();
    let mode = tree.mode_of(number).unwrap();
    text.extend_from_slice(b"view")?;
    write_view_number(text, number)?;
    write_view_number(text, tree.parent(number).unwrap_or(0))?;
    write_edges(text, frame)?;
    write_word(text, across_word(mode.across))?;
    write_word(text, down_word(mode.down))?;
    text.push(b'\n')?;
    Ok(())
}

fn write_edges(text: &mut Vec<u8>, rect: Rect) -> Result<(), NoMemory>
    ensures { OnOk result (text.new.items ≡ text.old.items ++ behind (edge_words rect)) }
{
    write_edge(text, rect.left)?;
    write_edge(text, rect.top)?;
    write_edge(text, rect.right)?;
    write_edge(text, rect.bottom)
}

/// An edge behind other words.
fn write_edge(text: &mut Vec<u8>, edge: i16) -> Result<(), NoMemory>
    ensures { OnOk result (text.new.items ≡ text.old.items ++ 32 ∷ signed_decimal edge) }
{
    text.push(b' ')?;
    write_number(text, i64::from(edge))
}

/// A view's number behind other words.
fn write_view_number(text: &mut Vec<u8>, number: u16) -> Result<(), NoMemory>
    ensures { OnOk result (text.new.items ≡ text.old.items ++ 32 ∷ decimal number) }
{
    text.push(b' ')?;
    write_natural(text, u64::from(number))
}

/// A word behind others.
fn write_word(text: &mut Vec<u8>, word: &[u8]) -> Result<(), NoMemory>
    ensures { OnOk result (text.new.items ≡ text.old.items ++ 32 ∷ word.now) }
{
    text.push(b' ')?;
    text.extend_from_slice(word)?;
    Ok(())
}

fn across_word(across: Across) -> &'static [u8]
    ensures { result.now ≡ across_word across }
{
    match across {
        Across::Left => b"left",
        Across::Right => b"right",
        Across::LeftRight => b"leftright",
        Across::Center => b"hcenter",
    }
}

fn down_word(down: Down) -> &'static [u8]
    ensures { result.now ≡ down_word down }
{
    match down {
        Down::Top => b"top",
        Down::Bottom => b"bottom",
        Down::TopBottom => b"topbottom",
        Down::Center => b"vcenter",
    }
}
