ghost use Rattle.std.specs.Prelude.{◌≡◌, pos, IfOk, IfErr};
ghost use Rattle.be_check.specs.Checking.{IsFaultOf};
ghost use Rattle.be_check.specs.Explaining.{explained};
ghost use Rattle.be_machine.specs.History.{IsFinished};

use crate::color::color_of;
use crate::fault::CheckFault;
use crate::stepping::{ends_in_stop, make_if_legal};
use crate::watching::{Seen, seen_behind};
use be_color::Rgb;
use be_hall::Held;
use be_machine::Entry;
use be_world::World;

/// A pixel's colour after a history, and the entry from which it has it.
#[derive(Clone, Copy, Debug, PartialEq, Eq)]
pub struct Explained {
    pub rgb: Rgb,
    /// The number of the last entry that changed the colour, counted from 1. 0: none did.
    pub entry: u64,
}

/// Which entry of a finished history explains the colour of a pixel. None off the screen.
pub fn explain(
    world: &World,
    history: &[Entry],
    x: u16,
    y: u16,
) -> Result<Option<Explained>, CheckFault>
    ensures finished { IfOk result (λ _. IsFinished world.now history.now) }
    ensures explained { IfOk result
        (λ found. found ≡ explained world.now history.now (pos x) (pos y)) }
    ensures fault { IfErr result (IsFaultOf world.now history.now) }
{
    let script = world.script();
    let opening = world.opening()?;
    let mut held = Held::whole(opening);
    let color = color_of(script, &held, x, y);
    let mut seen = Seen { color, last: 0 };
    let mut made = 0;
    for entry in history {
        let legal = make_if_legal(world, &mut held, entry, made)?;
        if !legal {
            return Err(CheckFault::Illegal(made + 1));
        }
        made += 1;
        seen = seen_behind(script, &held, x, y, &entry.act, made, seen);
    }
    if !ends_in_stop(history) {
        return Err(CheckFault::Illegal(made + 1));
    }
    let Seen { color, last } = seen;
    Ok(color.map(|rgb| Explained { rgb, entry: last }))
}
