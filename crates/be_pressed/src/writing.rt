ghost use Rattle.std.specs.Prelude.{◌≡◌, ◌∷◌, [], ◌++◌, ◌==◌, filter, map, slice_index_or, OnOk};
ghost use Rattle.std.specs.Fmt.{decimal};
ghost use Rattle.be_script.specs.Script.{declared_by};
ghost use Rattle.be_written.specs.Lines.{line_of};
ghost use Rattle.be_written.specs.Names.{view_name, window_name};

use be_geom::NoMemory;
use be_lex::write_natural;
use be_script::{Script, ViewLine};

/// Writes the line of a view that the letter of this number invoked.
pub(crate) fn write_invoked(
    text: &mut Vec<u8>,
    script: &Script,
    window: u16,
    view: u16,
    number: u64,
) -> Result<(), NoMemory>
    ensures { let d = declared_by script.now in OnOk result (text.new.items ≡ text.old.items
        ++ line_of (window_name d window ∷ view_name d window view ∷ decimal number ∷ [])) }
{
    text.extend_from_slice(window_name(script, window))?;
    text.push(b' ')?;
    text.extend_from_slice(view_name(script, window, view))?;
    text.push(b' ')?;
    write_natural(text, number)?;
    text.push(b'\n')?;
    Ok(())
}

/// The name of a window, or nothing where there is none.
fn window_name(script: &Script, window: u16) -> &[u8]
    ensures { result.now ≡ window_name (declared_by script.now) window }
{
    match script.windows.get(usize::from(window)) {
        Some(line) => line.name.as_slice(),
        None => b"",
    }
}

fn view_name(script: &Script, window: u16, view: u16) -> &[u8]
    ensures { result.now ≡ view_name (declared_by script.now) window view }
{
    if view == 0 {
        b"root"
    } else {
        name_below(&script.views, window, view - 1)
    }
}

/// The name of a view below a window's root, or nothing where there is none.
fn name_below(views: &[ViewLine], window: u16, place: u16) -> &[u8]
    ensures { result.now ≡ slice_index_or
        (map (λ line. line.name) (filter (λ line. line.window == window) views.now)) place [] }
{
    let mut left = place;
    for line in views {
        if line.window == window {
            if left == 0 {
                return line.name.as_slice();
            }
            left -= 1;
        }
    }
    b""
}
