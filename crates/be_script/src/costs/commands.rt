ghost use Rattle.std.specs.Prelude.{◌≡◌};
ghost use Rattle.be_command.specs.Effects.{effect_of};
ghost use Rattle.be_script.specs.Costs.{limited};
ghost use Rattle.be_script.specs.Work.{effect_cost, change_cost};

use be_command::Command;
use be_geom::Change;

/// What a command costs where updates cost so much.
pub(crate) fn command_cost(updates: u64, command: &Command) -> u64
    ensures { result ≡ limited (effect_cost updates (effect_of command.now)) }
{
    match command {
        Command::Fill(..)
        | Command::Frame(..)
        | Command::Line(..)
        | Command::Text(..)
        | Command::Bitmap(..)
        | Command::High(..)
        | Command::Low(..)
        | Command::ViewColor(..)
        | Command::Mode(..)
        | Command::PenSize(..)
        | Command::Pen(..)
        | Command::Origin(..)
        | Command::Clip(..)
        | Command::Push(_)
        | Command::Pop(_)
        | Command::EndUpdate => 3,
        Command::CopyBits(..) | Command::Invalidate(..) => updates.saturating_add(3),
        Command::Change(change) => change_cost(updates, *change),
    }
}

fn change_cost(updates: u64, change: Change) -> u64
    ensures { result ≡ limited (change_cost updates change) }
{
    match change {
        Change::Focus(_) => 3,
        Change::Show
        | Change::Hide
        | Change::MoveTo(_)
        | Change::MoveBy(..)
        | Change::ResizeTo(..)
        | Change::Activate
        | Change::Behind(_)
        | Change::Close => updates.saturating_add(3),
    }
}
