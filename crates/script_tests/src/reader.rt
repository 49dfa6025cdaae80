use be_command::Reason;
use be_reader::{ScriptFault, read};
use be_script::{limits_make_routable, work};
use std::alloc::{AllocError, Global};
use std::test::Fail;

/// What reading says: the work of a script, or the first fault.
fn verdict(alloc: Global, bytes: &[u8]) -> Result<u64, ScriptFault> {
    let script = read(alloc, bytes)?;
    limits_make_routable(&script);
    work(alloc, &script).map_err(|_| ScriptFault::NoMemory)
}

fn fault(line: u64, reason: Reason) -> ScriptFault {
    ScriptFault::At { line, reason }
}

/// Two windows whose bodies post to each other.
const CYCLE: &[u8] = b"screen 1 1\nwindow a 0 0 0 0\nwindow b 0 0 0 0\n\
    on a window PING\npost b window PING\nend\n\
    on b window PING\npost a window PING\nend\n\
    app m\npost a window PING\nend\n";

/// Six windows, two applications and six events.
const DESKTOP: &[u8] = b"screen 640 480\n\
    window tracker 0 0 639 479 avoidfocus color=d8d8d8\n\
    window deskbar 520 0 639 120 avoidfocus color=e8e8e8\n\
    window term 40 60 360 300\n\
    window edit 200 120 560 420 firstclick\n\
    window clock 560 440 639 479 color=ffffe0\n\
    window about 240 200 400 280\n\
    view edit pad root 10 20 350 290 leftright topbottom\n\
    view edit ok root 300 270 350 295 right bottom e0e0e0\n\
    draw edit pad\nhigh pad 203040\nfill pad 0 0 340 270 high\nend\n\
    on edit ok MDWN\npost term window LINE text=s:saved\nend\n\
    on term window LINE\npen root 8 40\ntext root saved\nreply DONE\nend\n\
    app shell\nlock tracker\nshow\nsync\nunlock\nlock deskbar\nshow\nsync\nunlock\n\
    lock clock\nshow\nsync\nunlock\nlock term\nshow\nsync\nunlock\nend\n\
    app editor\nlock edit\nshow\nactivate\nsync\nunlock\n\
    lock about\nshow\nactivate\nsync\nunlock\nsend term window LINE text=s:hello\nend\n\
    after shell\nafter editor\npoint 300 240\npress 510 400\nrelease 510 400\nkey 65\n";

#[test]
fn two_bodies_that_post_to_each_other(rt: HostRuntime) {
    assert_eq!(rt; verdict(rt.alloc(), CYCLE), Ok(34));
}

#[test]
fn a_desktop(rt: HostRuntime) -> Result<(), Fail> {
    assert_eq!(rt; verdict(rt.alloc(), DESKTOP), Ok(585));
    let script = read(rt.alloc(), DESKTOP)?;
    assert_eq!(rt; script.screen, (640, 480));
    assert_eq!(rt; script.apps.len(), 2);
    assert_eq!(rt; script.windows.len(), 6);
    assert_eq!(rt; script.views.len(), 2);
    assert_eq!(rt; script.bodies.len(), 2);
    assert_eq!(rt; script.draws.len(), 1);
    assert_eq!(rt; script.input.len(), 6);
    Ok(())
}

/// The texts, and between them a line so many times.
fn repeated(
    alloc: Global,
    head: &[u8],
    line: &[u8],
    times: u32,
    tail: &[u8],
) -> Result<Vec<u8>, AllocError> {
    let mut text = Vec::new(alloc);
    text.extend_from_slice(head)?;
    for _time in 0..times {
        text.extend_from_slice(line)?;
    }
    text.extend_from_slice(tail)?;
    Ok(text)
}

#[test]
fn work_has_a_limit(rt: HostRuntime) -> Result<(), Fail> {
    let alloc = rt.alloc();
    let head = b"screen 1 1\nwindow a 0 0 0 0\ndraw a root\n".as_slice();
    let drawn = b"end\napp m\nlock a\n".as_slice();
    let body = repeated(alloc, head, b"note x\n".as_slice(), 1024, drawn)?;
    // An update costs 8 and the 1,024 notes of the Draw body, and each show 3 more.
    let shown = repeated(alloc, &body, b"show\n".as_slice(), 253, b"".as_slice())?;
    for (notes, want) in [
        (285, Ok(262_144)),
        (286, Err(fault(1572, Reason::TooMuchWork))),
    ] {
        let tail = b"unlock\nend\n".as_slice();
        let text = repeated(alloc, &shown, b"note y\n".as_slice(), notes, tail)?;
        assert_eq!(rt; verdict(alloc, &text), want);
    }
    Ok(())
}

#[test]
fn a_body_posts_to_itself(rt: HostRuntime) -> Result<(), Fail> {
    // Twice: 5 at hop 7, and before it 5 and twice what is behind: 15, 35, 75, 155, 315, 635, 1275.
    for (posts, want) in [(2, Ok(1277)), (1024, Err(fault(1032, Reason::TooMuchWork)))] {
        let head = b"screen 1 1\nwindow a 0 0 0 0\non a window PING\n".as_slice();
        let tail = b"end\napp m\npost a window PING\nend\n".as_slice();
        let post = b"post a window PING\n".as_slice();
        let text = repeated(rt.alloc(), head, post, posts, tail)?;
        assert_eq!(rt; verdict(rt.alloc(), &text), want);
    }
    Ok(())
}

#[test]
fn scripts_and_lines_have_a_length(rt: HostRuntime) -> Result<(), Fail> {
    let alloc = rt.alloc();
    let none = b"".as_slice();
    let comment = b"#".as_slice();
    for (head, comments, want) in [
        (none, 1_048_577, fault(0, Reason::TooLong)),
        (none, 1_048_576, fault(1, Reason::LongLine)),
        (none, 2_049, fault(1, Reason::LongLine)),
        (none, 2_048, fault(2, Reason::Unfinished)),
        (
            b"screen 1 1\n".as_slice(),
            2_049,
            fault(2, Reason::LongLine),
        ),
    ] {
        let text = repeated(alloc, head, comment, comments, none)?;
        assert_eq!(rt; verdict(alloc, &text), Err(want));
    }
    Ok(())
}

#[test]
fn the_first_fault_counts(rt: HostRuntime) -> Result<(), Fail> {
    let head = b"screen 9 9\nwindow a 0 0 8 8\n".as_slice();
    for (line, reason, text) in [
        (3, Reason::BadByte, b"\r\r\n".as_slice()),
        (3, Reason::UnknownWord, b"bogus\n".as_slice()),
        (3, Reason::Place, b"row 000000\n".as_slice()),
        (
            5,
            Reason::Place,
            b"bitmap b 1 1\nrow 000000\nrow 000000\n".as_slice(),
        ),
        (4, Reason::NotHere, b"app m\nunlock\n".as_slice()),
        (5, Reason::NotHere, b"app m\nlock a\nend x\n".as_slice()),
        (4, Reason::Shape, b"bitmap b 1 1\nrow clear0\n".as_slice()),
        (3, Reason::Range, b"press 9 0\n".as_slice()),
        (
            4,
            Reason::Range,
            b"app m\npost zz window PING n=r:0,0,0,-32769\n".as_slice(),
        ),
        (
            5,
            Reason::NameTaken,
            b"on a window PING\nend\non a window PING\n".as_slice(),
        ),
        (
            4,
            Reason::NameTaken,
            b"handler a h window\nhandler a h zz\n".as_slice(),
        ),
        (3, Reason::UnknownName, b"draw a window\n".as_slice()),
        (
            5,
            Reason::Unfinished,
            b"bitmap b 1 2\nrow 000000\n".as_slice(),
        ),
    ] {
        let text = repeated(rt.alloc(), head, text, 1, b"".as_slice())?;
        assert_eq!(rt; verdict(rt.alloc(), &text), Err(fault(line, reason)));
    }
    // A 33rd window.
    let mut windows = repeated(
        rt.alloc(),
        b"screen 9 9\n".as_slice(),
        b"".as_slice(),
        0,
        b"".as_slice(),
    )?;
    for number in 0..33 {
        windows.extend_from_slice(b"window w")?;
        windows.push(b'a' + number % 26)?;
        windows.push(b'0' + number / 26)?;
        windows.extend_from_slice(b" 0 0 8 8\n")?;
    }
    assert_eq!(rt;
        verdict(rt.alloc(), &windows),
        Err(fault(34, Reason::TooMany))
    );
    Ok(())
}
