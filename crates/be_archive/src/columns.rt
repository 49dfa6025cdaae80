ghost use Rattle.std.specs.Prelude.{◌≡◌, pos, Some, slice_get};
ghost use Rattle.be_archive.specs.Archives.{across_number, down_number};
ghost use Rattle.be_archive.specs.Columns.{column_name, column_value};
ghost use Rattle.be_message.specs.Views.{seen_value};
ghost use Rattle.be_views.specs.Trees.{View};

use be_follow::{Across, Down};
use be_message::Value;
use be_views::ViewTree;

/// What a field of an archive says of each further view.
#[derive(Clone, Copy)]
pub(crate) enum Column {
    Parent,
    Frame,
    Across,
    Down,
}

impl Column {
    pub(crate) fn name(self) -> &'static str
        ensures { result.now ≡ column_name self }
    {
        match self {
            Column::Parent => "parent",
            Column::Frame => "frame",
            Column::Across => "across",
            Column::Down => "down",
        }
    }

    /// What it says of the view of this number.
    pub(crate) fn value(self, tree: &ViewTree, number: u16) -> Value
        requires { (view : View) × (slice_get tree.now number ≡ Some view) }
        ensures { (view : View) → slice_get tree.now number ≡ Some view
            → seen_value result ≡ column_value self view }
    {
        match self {
            Column::Parent => Value::Int(i32::from(tree.parent(number).unwrap_or(0))),
            Column::Frame => Value::Rect(tree.frame_of(number).unwrap()),
            Column::Across => Value::Int(across_number(tree.mode_of(number).unwrap().across)),
            Column::Down => Value::Int(down_number(tree.mode_of(number).unwrap().down)),
        }
    }
}

fn across_number(across: Across) -> i32
    ensures { result ≡ pos (across_number across) }
{
    match across {
        Across::Left => 0,
        Across::Right => 1,
        Across::LeftRight => 2,
        Across::Center => 3,
    }
}

fn down_number(down: Down) -> i32
    ensures { result ≡ pos (down_number down) }
{
    match down {
        Down::Top => 0,
        Down::Bottom => 1,
        Down::TopBottom => 2,
        Down::Center => 3,
    }
}
