ghost use Rattle.std.specs.Prelude.{◌≡◌};
ghost use Rattle.be_picture.specs.Sorts.{at_root, sort_of};

use be_command::Command;

/// What a drawing command does with the states that are open.
#[derive(Clone, Copy)]
pub(crate) enum Sort {
    Opens,
    Closes,
    Stays,
}

/// What a command does that draws on the view with the number 0. None where it is another one.
pub(crate) fn sort_of(command: &Command) -> Option<Sort>
    ensures { result ≡ sort_of command.now }
{
    match command {
        Command::Fill(view, _, _) => at_root(*view, Sort::Stays),
        Command::Frame(view, _, _) => at_root(*view, Sort::Stays),
        Command::Line(view, _, _, _) => at_root(*view, Sort::Stays),
        Command::Text(view, _) => at_root(*view, Sort::Stays),
        Command::Bitmap(view, _, _) => at_root(*view, Sort::Stays),
        Command::High(view, _) => at_root(*view, Sort::Stays),
        Command::Low(view, _) => at_root(*view, Sort::Stays),
        Command::ViewColor(view, _) => at_root(*view, Sort::Stays),
        Command::Mode(view, _) => at_root(*view, Sort::Stays),
        Command::PenSize(view, _) => at_root(*view, Sort::Stays),
        Command::Pen(view, _) => at_root(*view, Sort::Stays),
        Command::Origin(view, _) => at_root(*view, Sort::Stays),
        Command::Clip(view, _) => at_root(*view, Sort::Stays),
        Command::Push(view) => at_root(*view, Sort::Opens),
        Command::Pop(view) => at_root(*view, Sort::Closes),
        Command::CopyBits(_, _, _) => None,
        Command::Invalidate(_, _) => None,
        Command::Change(_) => None,
        Command::EndUpdate => None,
    }
}

fn at_root(view: u16, sort: Sort) -> Option<Sort>
    ensures { result ≡ at_root view sort }
{
    if view == 0 { Some(sort) } else { None }
}
