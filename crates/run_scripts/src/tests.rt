use crate::running::history_of;
use std::alloc::Global;
use std::test::Fail;

const FIRST_WINDOW: &[u8] = b"screen 4 3\n\
    window a 1 1 2 2\n\
    app m\n\
    lock a\n\
    show\n\
    fill root 0 0 9 9 high\n\
    unlock\n\
    end\n";

const FIRST_HISTORY: &[u8] = b"history 15\n\
    1 app:m lock a\n\
    2 app:m draw a 1\n\
    3 app:m draw a 2\n\
    4 app:m flush a 2\n\
    5 app:m unlock a\n\
    6 twin:a exec 1 done\n\
    7 twin:a notify 1\n\
    8 loop:a take 1\n\
    9 twin:a exec 2 done\n\
    10 loop:a begin open\n\
    11 loop:a draw a 3\n\
    12 loop:a flush a 1\n\
    13 loop:a end none\n\
    14 twin:a exec 3 done\n\
    15 stop stop\n\
    screen 4 3\n\
    0 4x336698\n\
    1 1x336698 2x000000 1x336698\n\
    2 1x336698 2x000000 1x336698\n";

/// A looper hides the window in front while the one behind inverts itself at each update. Drawing
/// past the second session would leave two white pixels.
const INVERTED: &[u8] = b"screen 3 1\n\
    window a 0 0 2 0\n\
    window b 0 0 0 0 firstclick\n\
    draw a root\n\
    mode root invert\n\
    fill root 0 0 2 0 high\n\
    end\n\
    on b root MDWN\n\
    hide\n\
    end\n\
    app m\n\
    lock b\n\
    show\n\
    unlock\n\
    lock a\n\
    show\n\
    unlock\n\
    end\n\
    press 0 0\n";

/// Two windows side by side, the first of which takes no first click.
const CLICKED: &[u8] = b"screen 2 1\n\
    window a 0 0 0 0\n\
    window b 1 0 1 0 firstclick\n\
    app m\n\
    lock a\n\
    show\n\
    unlock\n\
    lock b\n\
    show\n\
    unlock\n\
    end\n\
    press 0 0\n\
    press 0 0\n\
    press 1 0\n";

/// A view over another.
const COVERED: &[u8] = b"screen 1 1\n\
    window a 0 0 0 0\n\
    view a k root 0 0 0 0 left top ff0000\n\
    view a n root 0 0 0 0 left top 00ff00\n\
    app m\n\
    lock a\n\
    show\n\
    unlock\n\
    end\n";

/// An application shows a window and asks it something, and a button is released over it.
const ASKED: &[u8] = b"screen 1 1\n\
    window a 0 0 0 0\n\
    on a window ASK_\n\
    note here\n\
    reply YES_\n\
    end\n\
    app m\n\
    lock a\n\
    show\n\
    sync\n\
    unlock\n\
    send a window ASK_\n\
    end\n\
    release 0 0\n";

// In the four scripts below, a window is painted black before the change that each is about: the
// application waits for that, or the input goes on only where nobody else can. What is exposed anew
// is white. A window's letters are its first notice, what the input sends it, and one more notice
// for each change that exposes pixels of it.

/// Behind b, a is shown: it wins the one pixel that b leaves free, and b is as it was.
const SHOWN_BEHIND: &[u8] = b"screen 3 1\n\
    window a 0 0 1 0\n\
    window b 1 0 2 0\n\
    app m\n\
    lock b\n\
    show\n\
    fill root 0 0 1 0 high\n\
    sync\n\
    unlock\n\
    lock a\n\
    show\n\
    unlock\n\
    end\n";

/// In front of a, b is hidden: a wins the pixel that both have, and the desktop the other.
const HIDDEN_IN_FRONT: &[u8] = b"screen 3 1\n\
    window a 0 0 1 0\n\
    window b 1 0 2 0\n\
    on b root MUP_\n\
    hide\n\
    end\n\
    app m\n\
    lock b\n\
    show\n\
    fill root 0 0 1 0 high\n\
    unlock\n\
    lock a\n\
    show\n\
    fill root 0 0 1 0 high\n\
    unlock\n\
    end\n\
    release 2 0\n";

/// Behind b, a is activated and wins the pixel that both have. Then a key hides it: b, which lost
/// the pixel, wins it back and has to paint it.
const ACTIVATED: &[u8] = b"screen 3 1\n\
    window a 0 0 1 0\n\
    window b 1 0 2 0\n\
    on a root MUP_\n\
    activate\n\
    end\n\
    on a window KEYD\n\
    hide\n\
    end\n\
    app m\n\
    lock b\n\
    show\n\
    fill root 0 0 1 0 high\n\
    unlock\n\
    lock a\n\
    show\n\
    fill root 0 0 1 0 high\n\
    unlock\n\
    end\n\
    release 0 0\n\
    key 0\n";

/// Apart from b, a moves: its pixels move with it, and none is exposed.
const MOVED_APART: &[u8] = b"screen 64 16\n\
    window a 0 0 7 7\n\
    window b 32 0 39 7\n\
    on a root MUP_\n\
    moveby 1 0\n\
    end\n\
    app m\n\
    lock b\n\
    show\n\
    fill root 0 0 7 7 high\n\
    unlock\n\
    lock a\n\
    show\n\
    fill root 0 0 7 7 high\n\
    unlock\n\
    end\n\
    release 0 0\n";

/// What is written of the script's run, or nothing where there is none.
fn written(alloc: Global, script: &[u8]) -> Result<Vec<u8>, Fail> {
    match history_of(alloc, script, 0) {
        Ok(page) => Ok(Vec::from_slice(alloc, page.as_slice())?),
        Err(_) => Ok(Vec::new(alloc)),
    }
}

fn has(text: &[u8], part: &[u8]) -> bool {
    for at in 0..text.len() {
        if let Some(rest) = text.get(at..) {
            if rest.starts_with(part) {
                return true;
            }
        }
    }
    false
}

#[test]
fn a_window_is_shown_filled_and_updated(rt: HostRuntime) -> Result<(), Fail> {
    let text = written(rt.alloc(), FIRST_WINDOW)?;
    assert_eq!(rt; text.as_slice(), FIRST_HISTORY);
    Ok(())
}

#[test]
fn runs_have_these_entries_and_screens(rt: HostRuntime) -> Result<(), Fail> {
    for (script, line, there) in [
        (INVERTED, b"\nscreen 3 1\n0 3x000000\n".as_slice(), true),
        (CLICKED, b" input event 1\n".as_slice(), true),
        (CLICKED, b" input event 2 a ok 2\n".as_slice(), true),
        (CLICKED, b" input event 3 b ok 2\n".as_slice(), true),
        (COVERED, b"\nscreen 1 1\n0 1x00ff00\n".as_slice(), true),
        (SHOWN_BEHIND, b"\n0 1xffffff 2x000000\n".as_slice(), true),
        (SHOWN_BEHIND, b" twin:a notify 1\n".as_slice(), true),
        (SHOWN_BEHIND, b" twin:b notify 2\n".as_slice(), false),
        (
            HIDDEN_IN_FRONT,
            b"\n0 1x000000 1xffffff 1x336698\n".as_slice(),
            true,
        ),
        (HIDDEN_IN_FRONT, b" twin:a notify 2\n".as_slice(), true),
        (
            ACTIVATED,
            b"\n0 1x336698 1xffffff 1x000000\n".as_slice(),
            true,
        ),
        (ACTIVATED, b" twin:a notify 3\n".as_slice(), true),
        (ACTIVATED, b" twin:b notify 2\n".as_slice(), true),
        (
            MOVED_APART,
            b"\n0 1x336698 8x000000 23x336698 8x000000 24x336698\n".as_slice(),
            true,
        ),
        (MOVED_APART, b" twin:a notify 3\n".as_slice(), false),
        (MOVED_APART, b" twin:b notify 2\n".as_slice(), false),
    ] {
        let text = written(rt.alloc(), script)?;
        let found = has(text.as_slice(), line);
        assert_eq!(rt; found, there);
    }
    Ok(())
}

/// With seed 0 the first of those that have a legal entry steps: the application goes as far as it
/// can, then the looper, then the twin, and the input where none of them can.
#[test]
fn a_run_has_an_entry_of_each_kind(rt: HostRuntime) -> Result<(), Fail> {
    let text = written(rt.alloc(), ASKED)?;
    for line in [
        b"\n1 app:m lock a\n".as_slice(),
        b"\n2 app:m draw a 1\n".as_slice(),
        b"\n3 app:m flush a 1\n".as_slice(),
        b"\n4 twin:a exec 1 done\n".as_slice(),
        b"\n5 app:m syncdone a\n".as_slice(),
        b"\n6 app:m unlock a\n".as_slice(),
        b"\n7 app:m post a ok 1\n".as_slice(),
        b"\n8 loop:a take 1\n".as_slice(),
        b"\n9 loop:a note here\n".as_slice(),
        b"\n10 loop:a reply ok\n".as_slice(),
        b"\n11 app:m claim reply\n".as_slice(),
        b"\n12 loop:a end none\n".as_slice(),
        b"\n13 twin:a notify 2\n".as_slice(),
        b"\n15 loop:a begin open\n".as_slice(),
        b"\n20 input event 1 a ok 3\n".as_slice(),
        b"\n23 stop stop\n".as_slice(),
    ] {
        assert!(rt; has(text.as_slice(), line));
    }
    Ok(())
}
