ghost use Rattle.std.specs.Prelude.{◌≡◌, ◌<◌, length, [], ◌∷◌, ◌++◌, false, IfOk, OnOk};
ghost use Rattle.std.specs.List.{list_any};
ghost use Rattle.be_archive.specs.Archives.{archived, further, size_fields, size_value, view_word};
ghost use Rattle.be_archive.specs.Columns.{column_name, column_of};
ghost use Rattle.be_message.specs.Fields.{has_name, with_value};
ghost use Rattle.be_message.specs.Views.{seen_value};

use crate::columns::Column;
use be_geom::{NoMemory, Point, Rect};
use be_message::{Message, Value};
use be_views::ViewTree;
use std::alloc::Global;

/// The characters of `VIEW`.
pub(crate) const VIEW: u32 = 0x5649_4557;

/// The archive of a tree: `BView::Archive`. It looks at each view once for each of the five fields.
pub fn archive(alloc: Global, tree: &ViewTree) -> Result<Message, NoMemory>
    ensures { IfOk result (λ message. message ≡ archived tree.now) }
{
    let mut message = Message::new(alloc, VIEW);
    let count = tree.len() as u16;
    add_size(&mut message, tree)?;
    add_column(&mut message, tree, count, Column::Parent)?;
    add_column(&mut message, tree, count, Column::Frame)?;
    add_column(&mut message, tree, count, Column::Across)?;
    add_column(&mut message, tree, count, Column::Down)?;
    Ok(message)
}

fn add_size(message: &mut Message, tree: &ViewTree) -> Result<(), NoMemory>
    requires some { 0 < length tree.now }
    requires empty { message.old ≡ record { what = view_word; fields = [] } }
    ensures { OnOk result (message.new
        ≡ record { what = view_word; fields = size_fields tree.now }) }
{
    let root = tree.frame_of(0).unwrap();
    put(message, "size", size_of(root))
}

fn size_of(frame: Rect) -> Value
    ensures { seen_value result ≡ size_value frame }
{
    Value::Point(Point {
        x: frame.right,
        y: frame.bottom,
    })
}

/// Adds a field that has a value for each further view, if there are any.
fn add_column(
    message: &mut Message,
    tree: &ViewTree,
    count: u16,
    column: Column,
) -> Result<(), NoMemory>
    requires count { count ≡ length tree.now }
    requires some { 0 < count }
    requires new { list_any (has_name (column_name column)) message.old.fields ≡ false }
    ensures { OnOk result (message.new ≡ record message.old {
      fields = message.old.fields ++ column_of column (further tree.now);
    }) }
{
    for number in 1..count {
        put(message, column.name(), column.value(tree, number))?;
    }
    Ok(())
}

/// Adds a value, which no message refuses.
fn put(message: &mut Message, name: &str, value: Value) -> Result<(), NoMemory>
    ensures { OnOk result (message.new ≡ with_value message.old name.now (seen_value value)) }
{
    match message.add(name, value) {
        Ok(()) => Ok(()),
        Err(_) => Err(NoMemory),
    }
}
