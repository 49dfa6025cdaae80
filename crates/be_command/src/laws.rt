ghost use Rattle.std.specs.Prelude.{◌≡◌, ℕ, List, length, Ok, IsTrue};
ghost use Rattle.be_command.specs.declared.Command.{Command};
ghost use Rattle.be_command.specs.Limits.{is_command, names_what_is};
ghost use Rattle.be_command.specs.Reading.{command_of};
ghost use Rattle.be_command.specs.Spelling.{spelling};
ghost use Rattle.be_command.specs.Laws.{IsSpoken, IsCanonical};
ghost use Rattle.be_command.specs.Typed.{IsTyped};

use crate::names::Names;

/// What `write_command` writes, `read_command` reads as the same command: of each that a line can
/// be, so of none that names what has no name, and not of `EndUpdate`.
pub fn a_command_is_read_back(names: &Names)
    ensures { (c : Command) → IsSpoken names.now c
        → command_of names.now (spelling names.now c) ≡ Ok c }
{
    names.are_known();
}

/// Whatever `read_command` reads can be written. What is then written is read as the same command,
/// and is canonical: it is written as itself again.
pub fn a_line_is_written_once(names: &Names)
    ensures spoken { (line : List ℕ) (c : Command) → command_of names.now line ≡ Ok c
        → IsSpoken names.now c }
    ensures same { (line : List ℕ) (c : Command) → command_of names.now line ≡ Ok c
        → command_of names.now (spelling names.now c) ≡ Ok c }
    ensures canonical { (line : List ℕ) (c : Command) → command_of names.now line ≡ Ok c
        → IsCanonical names.now (spelling names.now c) }
{
    names.are_known();
}

/// Two commands that a line can be and that have the same spelling are equal.
pub fn a_spelling_has_one_command(names: &Names)
    ensures { (c d : Command) → IsSpoken names.now c → IsSpoken names.now d
        → spelling names.now c ≡ spelling names.now d → c ≡ d }
{
    names.are_known();
}

/// Each command within its limits that names what is there is one that a line can be, so that the
/// other laws hold of it.
pub fn a_command_has_a_line(names: &Names)
    ensures { (c : Command) → IsTyped c → IsTrue (is_command c)
        → IsTrue (names_what_is (length names.now.windows) (length names.now.views)
        (length names.now.bitmaps) c) → IsSpoken names.now c }
{}
