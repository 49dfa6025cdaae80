ghost use Rattle.std.specs.Prelude.{◌≡◌, ℕ, None, OnOk, Some, map, slice_get};
ghost use Rattle.be_command.specs.Names.{name_fault};
ghost use Rattle.be_said.specs.Everywhere.{with_bitmap, with_window};
ghost use Rattle.be_said.specs.declared.inside.Inside.{Inside};

// Names that the commands of each window may use.

use super::names;
use crate::inside::Inside;
use be_geom::NoMemory;
use be_message::Text;

pub(super) fn add_window(insides: &mut [Inside], name: &Text) -> Result<(), NoMemory>
    requires { (w : ℕ) (inside : Inside) → slice_get insides.old w ≡ Some inside
        → name_fault 32 inside.names.windows name.now ≡ None }
    ensures { OnOk result (insides.new ≡ map (with_window name.now) insides.old) }
{
    for inside in insides.iter_mut() {
        names::add_window(&mut inside.names, name)?;
    }
    Ok(())
}

pub(super) fn add_bitmap(insides: &mut [Inside], name: &Text) -> Result<(), NoMemory>
    requires { (w : ℕ) (inside : Inside) → slice_get insides.old w ≡ Some inside
        → name_fault 64 inside.names.bitmaps name.now ≡ None }
    ensures { OnOk result (insides.new ≡ map (with_bitmap name.now) insides.old) }
{
    for inside in insides.iter_mut() {
        names::add_bitmap(&mut inside.names, name)?;
    }
    Ok(())
}
