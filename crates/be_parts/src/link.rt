ghost use Rattle.std.specs.Prelude.{◌≡◌, ◌<◌, ◌++◌, ◌∷◌, [], Some, length, option_map, IfOk};
ghost use Rattle.be_link.specs.Queues.{numbered, shortened};
ghost use Rattle.be_parts.specs.Effects.{link_with};
ghost use Rattle.be_parts.specs.Links.{commands_of, front_of};
ghost use Rattle.be_rules.specs.Slices.{link, link_in};

use be_command::Command;
use be_geom::NoMemory;
use be_link::Link;
use std::alloc::Global;
use std::marker::Model;

/// The commands of a window on their way to its twin.
#[derive(Drop)]
pub struct LinkPart {
    window: u16,
    link: Link,
}

impl Model for LinkPart {
    ghost use Rattle.std.specs.Prelude.{Some};
    ghost use Rattle.std.specs.Coded.{codes};
    ghost use Rattle.be_message.specs.Codes.{message_code};
    ghost use Rattle.be_reply.specs.Codes.{cell_code};
    ghost use Rattle.be_rules.specs.Slices as slices;

    ghost Value = { slices.Slice };

    ghost coded = { Prim.hlevel (codes, message_code, cell_code) };

    ghost view = { λ p. slices.link p.window (Some p.link) };
}

impl LinkPart {
    /// A link without commands.
    pub fn new(alloc: Global, window: u16) -> Result<LinkPart, NoMemory>
        ensures { IfOk result (λ part. part ≡ link window (Some [])) }
    {
        Ok(LinkPart {
            window,
            link: Link::new(alloc)?,
        })
    }

    /// The commands that weren't executed.
    pub fn link(&self) -> &Link
        ensures { link_in self.now ≡ Some result.now }
    {
        &self.link
    }

    /// Takes the oldest command, with its number.
    pub fn pop(&mut self) -> Option<(u64, Command)>
        ensures command { option_map numbered result ≡ front_of self.old }
        ensures slice { self.new ≡ link_with shortened self.old }
    {
        self.link.pop()
    }

    /// Takes a command over from the buffer, with its number.
    pub fn push(&mut self, number: u64, command: Command)
        requires { length (commands_of self.old) < 256 }
        ensures { self.new ≡ link_with (λ commands. commands ++ numbered (number, command) ∷ [])
            self.old }
    {
        self.link.push(number, command);
    }
}
