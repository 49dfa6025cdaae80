ghost use Rattle.std.specs.Prelude.{◌≡◌};
ghost use Rattle.be_picture.specs.Recording.{IsRecorded, open_pushes};

use be_command::Command;
use std::marker::Model;

/// A recorded picture: `BPicture`.
#[derive(Debug, Drop)]
pub struct Picture {
    pub(crate) commands: Vec<Command>,
    // How many of the states that it saves it leaves open.
    pub(crate) pushes: u8,
}

impl Model for Picture {
    ghost use Rattle.std.specs.Prelude.{◌≡◌, List};
    ghost use Rattle.be_command.specs.declared.Command.{Command};
    ghost use Rattle.be_picture.specs.Recording.{IsRecorded, open_pushes};

    ghost Value = { List Command };

    ghost view = { λ picture. picture.commands.items };

    ghost invariant = { λ picture. IsRecorded picture.commands.items
        × (picture.pushes ≡ open_pushes picture.commands.items) };
}

impl Picture {
    /// The commands in the order in which they were recorded.
    pub fn commands(&self) -> &[Command]
        ensures commands { result.now ≡ self.now }

        // What holds of every picture, for callers that rest on it.
        ensures recorded { IsRecorded self.now }
    {
        self.commands.as_slice()
    }

    /// How many of the states that it saves it leaves open.
    pub(crate) fn pushes(&self) -> u8
        ensures number { result ≡ open_pushes self.now }
        ensures recorded { IsRecorded self.now }
    {
        self.pushes
    }

    pub(crate) fn into_commands(self) -> Vec<Command>
        ensures { result.items ≡ self }
    {
        self.commands
    }
}
