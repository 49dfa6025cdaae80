ghost use Rattle.std.specs.Prelude.{◌≡◌, ◌+◌, ◌<◌, ◌≤◌, ◌≤ℤ◌, pos, true, ◌++◌, ◌∷◌, [], Ok, IfOk};
ghost use Rattle.std.specs.Prelude.{IfErr};
ghost use Rattle.std.specs.Prelude.{OnOk, length, option_map};
ghost use Rattle.be_archive.specs.Faults.{IsFault, IsRefusal};
ghost use Rattle.be_archive.specs.Reading.{can_follow, has_columns, has_size, have_form};
ghost use Rattle.be_archive.specs.Reading.{is_archive};
ghost use Rattle.be_archive.specs.Reading.{is_negative, size_in, tree_in, view_count, views_in};
ghost use Rattle.be_archive.specs.Rows.{DepthsAre, depth_behind, seen_row};
ghost use Rattle.be_message.specs.Views.{seen_fields};
ghost use Rattle.be_views.specs.Trees.{Tree};

use crate::fault::ArchiveFault;
use crate::rows::{Row, is_field_at, row_at, size_at, value_count};
use crate::writing::VIEW;
use be_geom::{NoMemory, Point};
use be_message::{Field, Kind, Message};
use be_views::ViewTree;
use std::alloc::Global;

/// How many views there may be beside the root.
const MAX_FURTHER: usize = 31;

/// How deep a view may be, where the root is at depth 1.
const MAX_DEPTH: u8 = 8;

/// The tree of which the message is the archive: `BView`'s constructor from an archive. It reads
/// each value twice, the first time without memory.
pub fn unarchive(alloc: Global, message: &Message) -> Result<ViewTree, ArchiveFault>
    ensures tree { IfOk result (λ tree. tree_in message.now ≡ Ok tree) }
    ensures fault { IfErr result (λ fault. IsFault fault (tree_in message.now)) }
{
    let size = size_in(message)?;
    let fields = message.fields();
    check_views(fields, size)?;
    match build(alloc, fields, size) {
        Ok(tree) => Ok(tree),
        Err(NoMemory) => Err(ArchiveFault::NoMemory),
    }
}

// The size of the root, where the message has the form of an archive, and few views.
fn size_in(message: &Message) -> Result<Point, ArchiveFault>
    ensures size { IfOk result (λ size. size_in message.now ≡ Ok size) }
    ensures across { IfOk result (λ size. pos 0 ≤ℤ size.x) }
    ensures down { IfOk result (λ size. pos 0 ≤ℤ size.y) }
    ensures few { OnOk result (view_count message.now.fields ≤ 31) }
    ensures fault { IfErr result (λ fault. IsRefusal fault (size_in message.now)) }
{
    if !is_archive(message) {
        return Err(ArchiveFault::NotArchive);
    }
    let fields = message.fields();
    let Some(size) = size_at(fields) else {
        return Err(ArchiveFault::NotArchive);
    };
    if is_negative(size) {
        return Err(ArchiveFault::BadSize);
    }
    if value_count(fields, 1) > MAX_FURTHER {
        return Err(ArchiveFault::TooMany);
    }
    Ok(size)
}

fn is_negative(size: Point) -> bool
    ensures { result ≡ is_negative size }
{
    size.x < 0 || size.y < 0
}

// Whether its `what` and the names, types and numbers of values of its fields are those of an
// archive.
fn is_archive(message: &Message) -> bool
    ensures { result ≡ is_archive message.now }
{
    message.what() == VIEW && have_form(message.fields())
}

fn have_form(fields: &[Field]) -> bool
    ensures { result ≡ have_form (seen_fields fields.now) }
{
    if !has_size(fields) {
        return false;
    }
    if value_count(fields, 1) == 0 {
        return fields.len() == 1;
    }
    fields.len() == 5 && has_columns(fields)
}

fn has_size(fields: &[Field]) -> bool
    ensures { result ≡ has_size (seen_fields fields.now) }
{
    is_field_at(fields, 0, "size", Kind::Point) && value_count(fields, 0) == 1
}

fn has_columns(fields: &[Field]) -> bool
    ensures { result ≡ has_columns (seen_fields fields.now) }
{
    let count = value_count(fields, 1);
    is_field_at(fields, 1, "parent", Kind::Int)
        && is_field_at(fields, 2, "frame", Kind::Rect)
        && value_count(fields, 2) == count
        && is_field_at(fields, 3, "across", Kind::Int)
        && value_count(fields, 3) == count
        && is_field_at(fields, 4, "down", Kind::Int)
        && value_count(fields, 4) == count
}

// Tells the first further view that can't be, without memory.
fn check_views(fields: &[Field], size: Point) -> Result<(), ArchiveFault>
    requires { view_count (seen_fields fields.now) ≤ 31 }
    ensures ok { OnOk result ((tree : Tree) × (views_in (seen_fields fields.now) size ≡ Ok tree)) }
    ensures fault { IfErr result
        (λ fault. IsRefusal fault (views_in (seen_fields fields.now) size)) }
{
    let count = value_count(fields, 1);
    let mut depths = [1; 32];
    for number in 0..count {
        match depth_of(&depths, row_at(fields, number), number) {
            Some(depth) => depths[number + 1] = depth,
            None => {
                let view = number as u16 + 1;
                return Err(ArchiveFault::BadView { view });
            }
        }
    }
    Ok(())
}

// How deep the further view of this number lies, where those before it are so deep.
fn depth_of(depths: &[u8; 32], row: Option<Row>, number: usize) -> Option<u8>
    requires { number < 31 }
    ensures { (tree : Tree) → DepthsAre depths.now tree → length tree ≡ number + 1
        → result ≡ depth_behind tree (option_map seen_row row) }
{
    let row = row?;
    let parent = row.parent as usize;
    if parent > number || depths[parent] >= MAX_DEPTH {
        return None;
    }
    Some(depths[parent] + 1)
}

// The tree, where each further view can be.
fn build(alloc: Global, fields: &[Field], size: Point) -> Result<ViewTree, NoMemory>
    requires few { view_count (seen_fields fields.now) ≤ 31 }
    requires across { pos 0 ≤ℤ size.x }
    requires down { pos 0 ≤ℤ size.y }
    requires tree { (tree : Tree) × (views_in (seen_fields fields.now) size ≡ Ok tree) }
    ensures { IfOk result (λ tree. views_in (seen_fields fields.now) size ≡ Ok tree) }
{
    let count = value_count(fields, 1);
    let mut tree = ViewTree::new(alloc, size.x, size.y)?;
    for number in 0..count {
        let Some(row) = row_at(fields, number) else {
            unreachable!()
        };
        add(&mut tree, row)?;
    }
    Ok(tree)
}

fn add(tree: &mut ViewTree, row: Row) -> Result<(), NoMemory>
    requires few { length tree.old ≤ 32 }
    requires follows { can_follow tree.old (seen_row row) ≡ true }
    ensures { OnOk result (tree.new ≡ tree.old ++ seen_row row ∷ []) }
{
    match tree.add(row.parent as u16, row.frame, row.mode) {
        Ok(_) => Ok(()),
        Err(_) => Err(NoMemory),
    }
}
