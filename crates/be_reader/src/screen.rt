ghost use Rattle.std.specs.Prelude.{◌≡◌, ◌≤◌, ◌-ℤ◌, pos};
ghost use Rattle.std.specs.Option.{option_map};
ghost use Rattle.be_command.specs.Kinds.{numbered};
ghost use Rattle.be_command.specs.Places.{judged};
ghost use Rattle.be_geom.specs.Points.{between};
ghost use Rattle.be_script.specs.Limits.{is_frame};

// What a line says of pixels: those of the screen, and those between the edges of a frame.

use be_command::Reason;
use be_geom::Rect;
use be_line::judging;

/// A number from 0 on, below `count`. None stands for a missing word.
pub(crate) fn below(word: Option<&[u8]>, count: u16) -> Result<i16, Reason>
    requires { count ≤ 1024 }
    ensures { result ≡ judged (numbered (pos 0) (pos count -ℤ pos 1))
        (option_map (λ w. w.now) word.entry) }
{
    Ok(judging::number(word, 0, i32::from(count) - 1)? as i16)
}

/// Whether a frame has pixels, and its edges are at most 32767 apart.
pub(crate) fn is_frame(frame: Rect) -> bool
    ensures { result ≡ is_frame frame }
{
    is_extent(frame.left, frame.right) && is_extent(frame.top, frame.bottom)
}

fn is_extent(first: i16, last: i16) -> bool
    ensures { result ≡ between (pos 0) (last -ℤ first) (pos 32767) }
{
    let extent = i32::from(last) - i32::from(first);
    0 <= extent && extent <= 32_767
}
