ghost use Rattle.std.specs.Prelude.{◌≡◌, IfOk};
ghost use Rattle.be_script.specs.Limits.{IsWithinLimits};
ghost use Rattle.be_script.specs.Script.{declared_by};

use crate::bitmaps::bitmaps_of;
use be_bitmap::Bitmap;
use be_geom::NoMemory;
use be_handler::Chain;
use be_ready::chains_of;
use be_script::Script;
use std::alloc::Global;
use std::marker::Model;

/// The rules of a script's run, seen as what the script declares.
#[derive(Drop)]
pub struct World {
    pub(crate) alloc: Global,
    pub(crate) script: Script,
    // The script's, one beside the other, as a twin draws them.
    pub(crate) bitmaps: Vec<Bitmap>,
    // How messages find their handlers in each window.
    pub(crate) chains: Vec<Chain>,
}

impl Model for World {
    ghost use Rattle.std.specs.Coded.{codes};
    ghost use Rattle.be_message.specs.Codes.{datum_code, message_code};
    ghost use Rattle.be_script.specs.Script.{Declared, declared_by};
    ghost use Rattle.be_world.specs.Worlds.{IsWorld};

    ghost Value = { Declared };

    ghost coded = { Prim.hlevel (codes, datum_code, message_code) };

    ghost view = { λ w. declared_by w.script };

    ghost invariant = { λ w. IsWorld (declared_by w.script) w.bitmaps.items w.chains.items };
}

impl World {
    /// The rules of a run of this script. Its bitmaps are copied once, and the handlers, filters
    /// and bodies of each window are put together once.
    pub fn new(alloc: Global, script: Script) -> Result<World, NoMemory>
        requires { IsWithinLimits (declared_by script) }
        ensures { IfOk result (λ world. world ≡ declared_by script) }
    {
        let bitmaps = bitmaps_of(alloc, &script.bitmaps)?;
        let chains = chains_of(alloc, &script)?;
        Ok(World {
            alloc,
            script,
            bitmaps,
            chains,
        })
    }

    /// Where it takes its memory.
    pub fn alloc(&self) -> Global {
        self.alloc
    }

    /// The script whose run it is.
    pub fn script(&self) -> &Script
        ensures declared { declared_by result.now ≡ self.now }
        ensures limits { IsWithinLimits self.now }
    {
        &self.script
    }
}
