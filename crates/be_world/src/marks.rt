//! Marks of activities, by number.
ghost use Rattle.std.specs.Prelude.{◌≡◌, ◌<◌, ◌≤◌, ◌+◌, ◌*◌, length};
ghost use Rattle.be_world.specs.Marks.{IsOf, IsTwin, Marks};

/// Marks so many from the first on.
pub(crate) fn mark_first(marks: &mut [bool], many: usize)
    requires { many ≤ length marks.old }
    ensures { Marks (λ a. a < many) marks.old marks.new }
{
    for a in 0..many {
        marks[a] = true;
    }
}

/// Marks the looper and the twin of a window, where there is one.
pub(crate) fn mark_window(marks: &mut [bool], apps: usize, window: Option<u16>)
    requires { apps ≤ 16 }
    ensures { Marks (IsOf apps window) marks.old marks.new }
{
    let Some(window) = window else {
        return;
    };
    let looper = apps + 2 * usize::from(window);
    mark_one(marks, looper);
    mark_one(marks, looper + 1);
}

/// Marks the twins of all windows.
pub(crate) fn mark_twins(marks: &mut [bool], apps: usize, windows: usize)
    requires { apps + 2 * windows ≤ length marks.old }
    ensures { Marks (IsTwin apps windows) marks.old marks.new }
{
    for window in 0..windows {
        marks[apps + 2 * window + 1] = true;
    }
}

/// Marks one, where it is there.
pub(crate) fn mark_one(marks: &mut [bool], at: usize)
    ensures { Marks (λ a. a ≡ at) marks.old marks.new }
{
    if at < marks.len() {
        marks[at] = true;
    }
}
