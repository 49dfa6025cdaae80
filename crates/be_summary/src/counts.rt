ghost use Rattle.std.specs.Prelude.{◌≡◌, ◌++◌, OnOk};
ghost use Rattle.be_summary.specs.Counts.{count_line};

use be_geom::NoMemory;
use be_lex::write_natural;

/// A line of a word and a number.
pub fn write_count(text: &mut Vec<u8>, word: &[u8], number: u64) -> Result<(), NoMemory>
    ensures { OnOk result (text.new.items ≡ text.old.items ++ count_line word.now number) }
{
    text.extend_from_slice(word)?;
    text.push(b' ')?;
    write_natural(text, number)?;
    text.push(b'\n')?;
    Ok(())
}
