ghost use Rattle.std.specs.Prelude.{◌≡◌, ◌∷◌, ◌++◌, [], None, true, IfErr, OnOk, is_ok};
ghost use Rattle.be_command.specs.Names.{name_fault};
ghost use Rattle.be_lex.specs.Names.{is_name};

use be_command::{NameFault, Names};
use be_geom::NoMemory;
use be_message::Text;

pub(super) fn add_window(names: &mut Names, name: &Text) -> Result<(), NoMemory>
    requires { name_fault 32 names.old.windows name.now ≡ None }
    ensures { OnOk result
        (names.new ≡ record names.old { windows = names.old.windows ++ name.now ∷ [] }) }
{
    added(names.add_window(text_of(name)))
}

pub(super) fn add_view(names: &mut Names, name: &Text) -> Result<(), NoMemory>
    requires { name_fault 32 names.old.views name.now ≡ None }
    ensures { OnOk result
        (names.new ≡ record names.old { views = names.old.views ++ name.now ∷ [] }) }
{
    added(names.add_view(text_of(name)))
}

pub(super) fn add_bitmap(names: &mut Names, name: &Text) -> Result<(), NoMemory>
    requires { name_fault 64 names.old.bitmaps name.now ≡ None }
    ensures { OnOk result
        (names.new ≡ record names.old { bitmaps = names.old.bitmaps ++ name.now ∷ [] }) }
{
    added(names.add_bitmap(text_of(name)))
}

/// A name that has its number, unless there was no memory.
fn added(number: Result<u16, NameFault>) -> Result<(), NoMemory>
    requires { IfErr number (λ fault. fault ≡ NameFault.NoMemory) }
    ensures { is_ok result ≡ is_ok number }
{
    match number {
        Ok(_) => Ok(()),
        Err(NameFault::NoMemory) => Err(NoMemory),
        Err(NameFault::BadName | NameFault::NameTaken | NameFault::TooMany) => unreachable!(),
    }
}

fn text_of(name: &Text) -> &str
    requires { is_name name.now ≡ true }
    ensures { result.now ≡ name.now }
{
    std::str::from_utf8(name.as_slice()).unwrap()
}
