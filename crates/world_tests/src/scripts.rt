//! The scripts that are run.

/// One window, which is shown and filled.
pub(crate) const FILLED: &[u8] = b"screen 4 3\n\
    window a 1 1 2 2\n\
    app m\n\
    lock a\n\
    show\n\
    fill root 0 0 9 9 high\n\
    unlock\n\
    end\n";

/// Two windows that lie apart. The third turn of a's twin moves a, and that of b's ends b's update,
/// so each of the two holds parts that the other doesn't want.
pub(crate) const APART: &[u8] = b"screen 64 16\n\
    window a 0 0 7 7\n\
    window b 32 0 39 7\n\
    app m\n\
    lock b\n\
    show\n\
    sync\n\
    unlock\n\
    lock a\n\
    show\n\
    moveby 1 0\n\
    unlock\n\
    end\n";

/// The numbers of the two twins in `APART`: behind the application, each window has its looper and
/// its twin.
pub(crate) const TWINS_APART: (u32, u32) = (2, 4);

/// A window that is filled and moved.
pub(crate) const MOVED: &[u8] = b"screen 4 1\n\
    window a 0 0 1 0\n\
    app m\n\
    lock a\n\
    show\n\
    fill root 0 0 0 0 high\n\
    moveby 1 0\n\
    unlock\n\
    end\n";

pub(crate) const MOVED_SCREEN: &[u8] = b"screen 4 1\n0 1x336698 1x000000 1xffffff 1x336698\n";

pub(crate) const FILLED_SCREEN: &[u8] = b"screen 4 3\n\
    0 4x336698\n\
    1 1x336698 2x000000 1x336698\n\
    2 1x336698 2x000000 1x336698\n";
