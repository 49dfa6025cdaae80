use crate::serve::{serve, serve_alone};
use crate::status::Status;
use be_command::Reason;
use be_outside::{MemorySink, MemorySource, OpenGate};
use std::alloc::Global;
use std::test::Fail;

const FIRST_WINDOW: &[u8] =
    b"screen 4 3\nwindow a 1 1 2 2\napp m\nlock a\nshow\nfill root 0 0 9 9 high\nunlock\nend\n";

const FIRST_REPORT: &[u8] =
    b"history 15\n1 app:m lock a\n2 app:m draw a 1\n3 app:m draw a 2\n4 app:m flush a 2\n5 app:m unlock a\n6 twin:a exec 1 done\n7 twin:a notify 1\n8 loop:a take 1\n9 twin:a exec 2 done\n10 loop:a begin open\n11 loop:a draw a 3\n12 loop:a flush a 1\n13 loop:a end none\n14 twin:a exec 3 done\n15 stop stop\ntraces\napp m\nloop a\ntake 1 twin:a 0 UPDT window window\nupdate root 0 0 1 1\nscreen 4 3\n0 4x336698\n1 1x336698 2x000000 1x336698\n2 1x336698 2x000000 1x336698\nend\n";

const EMPTY_REPORT: &[u8] =
    b"history 1\n1 stop stop\ntraces\nscreen 4 3\n0 4x336698\n1 4x336698\n2 4x336698\nend\n";

const FIRST_SCREEN: &[u8] =
    b"screen 4 3\n0 4x336698\n1 1x336698 2x000000 1x336698\n2 1x336698 2x000000 1x336698\nend\n";

const PICTURE: &[u8] = b"fill root 0 0 0 0 high\n\
    push root\n\
    high root ff0000\n\
    fill root 1 0 1 0 high\n\
    pop root\n\
    fill root 2 0 9 9 high\n";

const DRAWN: &[u8] = b"screen 3 1\n0 1x000000 1xff0000 1x000000\nend\n";

const WHITE: &[u8] = b"screen 3 1\n0 3xffffff\nend\n";

const KEPT: &[u8] = b"screen 9 9\nwindow a 0 0 7 5\nview a k root 1 2 3 4 right top\n";

const ARCHIVE: &[u8] =
    b"574549560542504e540473697a6501070005004c4f4e4706706172656e7401000000005245435405\
    6672616d65010100020003000400\
    4c4f4e47066163726f737301010000004c4f4e4704646f776e0100000000\n";

const TREE: &[u8] = b"size 7 5\nview 1 0 1 2 3 4 right top\n";

const PRESSED: &[u8] = b"screen 4 1\n\
    window a 0 0 3 0 firstclick\n\
    view a k root 1 0 2 0 left top\n\
    app m\n\
    lock a\n\
    show\n\
    unlock\n\
    end\n\
    after m\n\
    press 1 0\n\
    release 2 0\n\
    press 1 0\n\
    release 0 0\n\
    release 1 0\n";

/// What a call answers, and what its sink holds then.
fn served(
    alloc: Global,
    words: &[&str],
    script: &[u8],
    failing_read: Option<u64>,
    failing_put: Option<u64>,
) -> Result<(Status, Vec<u8>), Fail> {
    let mut owned = Vec::new(alloc);
    for word in words {
        owned.push(String::from_str(alloc, word)?)?;
    }
    let mut source = MemorySource::new(
        Vec::from_slice(alloc, script)?,
        listed(alloc, failing_read)?,
    );
    let mut sink = MemorySink::new(alloc, 65536, listed(alloc, failing_put)?)?;
    let status = serve_alone(alloc, owned.as_slice(), &mut source, &mut sink);
    Ok((status, Vec::from_slice(alloc, sink.held())?))
}

fn listed(alloc: Global, number: Option<u64>) -> Result<Vec<u64>, Fail> {
    let mut numbers = Vec::new(alloc);
    if let Some(number) = number {
        numbers.push(number)?;
    }
    Ok(numbers)
}

#[test]
fn serves_scripts(rt: HostRuntime) -> Result<(), Fail> {
    let unfinished = Status::BadScript {
        line: 1,
        reason: Reason::Unfinished,
    };
    for (script, status, report) in [
        (FIRST_WINDOW, Status::Finished, FIRST_REPORT),
        (b"screen 4 3\n".as_slice(), Status::Finished, EMPTY_REPORT),
        (b"".as_slice(), unfinished, b"".as_slice()),
    ] {
        let (answer, held) = served(rt.alloc(), &["serial", "0"], script, None, None)?;
        assert_eq!(rt; answer, status);
        assert_eq!(rt; held.as_slice(), report);
    }
    Ok(())
}

// Whoever steps, the screen is the same.
#[test]
fn runs_scripts_on_threads(rt: HostRuntime) -> Result<(), Fail> {
    let words = [String::from_str(rt.alloc(), "run")?];
    let script = Vec::from_slice(rt.alloc(), FIRST_WINDOW)?;
    let mut source = MemorySource::new(script, Vec::new(rt.alloc()));
    let mut sink = MemorySink::new(rt.alloc(), 65536, Vec::new(rt.alloc()))?;
    let status = serve(
        &rt,
        rt.alloc(),
        words.as_slice(),
        &mut source,
        &mut sink,
        &OpenGate,
    );
    assert_eq!(rt; status, Status::Finished);
    assert!(rt; sink.held().starts_with(b"history 15\n"));
    assert!(rt; sink.held().ends_with(FIRST_SCREEN));
    Ok(())
}

#[test]
fn judges_reports(rt: HostRuntime) -> Result<(), Fail> {
    let unfinished = b"history 1\n1 app:m lock a\ntraces\n".as_slice();
    let wrong = b"history 2\n1 app:m lock a\n2 stop stop\ntraces\n".as_slice();
    let bad_entry = Status::BadScript {
        line: 10,
        reason: Reason::BadEntry,
    };
    for (report, status, due, pixel) in [
        (
            FIRST_REPORT,
            Status::Finished,
            FIRST_REPORT,
            b"1 1 000000 9\n".as_slice(),
        ),
        (
            unfinished,
            Status::Illegal { entry: 2 },
            b"".as_slice(),
            b"".as_slice(),
        ),
        (
            wrong,
            Status::Illegal { entry: 2 },
            b"".as_slice(),
            b"".as_slice(),
        ),
        (
            b"history 1\n2 app:m lock a\ntraces\n".as_slice(),
            bad_entry,
            b"".as_slice(),
            b"".as_slice(),
        ),
    ] {
        let mut both = Vec::from_slice(rt.alloc(), FIRST_WINDOW)?;
        both.extend_from_slice(report)?;
        let (answer, held) = served(rt.alloc(), &["replay"], &both, None, None)?;
        assert_eq!(rt; answer, status);
        assert_eq!(rt; held.as_slice(), due);
        let (answer, held) = served(rt.alloc(), &["explain", "1", "1"], &both, None, None)?;
        assert_eq!(rt; answer, status);
        assert_eq!(rt; held.as_slice(), pixel);
    }
    Ok(())
}

#[test]
fn draws_and_archives(rt: HostRuntime) -> Result<(), Fail> {
    let shape = Status::BadScript {
        line: 1,
        reason: Reason::Shape,
    };
    let not_here = Status::BadScript {
        line: 1,
        reason: Reason::NotHere,
    };
    let cases: [(&[&str], &[u8], Status, &[u8]); 7] = [
        (&["picture", "3", "1"], PICTURE, Status::Finished, DRAWN),
        (&["picture", "3", "1"], b"", Status::Finished, WHITE),
        (&["picture", "3", "1"], b"pop root\n", not_here, b""),
        (&["archive", "0"], KEPT, Status::Finished, ARCHIVE),
        (&["archive", "1"], KEPT, Status::Finished, b"none\n"),
        (&["unarchive"], ARCHIVE, Status::Finished, TREE),
        (&["unarchive"], TREE, shape, b""),
    ];
    for (words, input, status, due) in cases {
        let (answer, held) = served(rt.alloc(), words, input, None, None)?;
        assert_eq!(rt; answer, status);
        assert_eq!(rt; held.as_slice(), due);
    }
    Ok(())
}

// The report is that of `serial 0`. The second release is over the root, so the third is nobody's.
#[test]
fn hears_buttons(rt: HostRuntime) -> Result<(), Fail> {
    let (answer, report) = served(rt.alloc(), &["serial", "0"], PRESSED, None, None)?;
    assert_eq!(rt; answer, Status::Finished);
    let mut both = Vec::from_slice(rt.alloc(), PRESSED)?;
    both.extend_from_slice(&report)?;
    let (answer, held) = served(rt.alloc(), &["buttons"], &both, None, None)?;
    assert_eq!(rt; answer, Status::Finished);
    assert_eq!(rt; held.as_slice(), b"a k 3\n".as_slice());
    Ok(())
}

#[test]
fn tells_faults(rt: HostRuntime) -> Result<(), Fail> {
    let two_lines = b"history 15\n1 app:m lock a\n2 app:m ".as_slice();
    for (read, put, status, report) in [
        (Some(1), None, Status::ReadFault, b"".as_slice()),
        (None, Some(2), Status::WriteFault, two_lines),
        (Some(0), Some(0), Status::ReadFault, b"".as_slice()),
        (None, Some(0), Status::WriteFault, b"histo".as_slice()),
    ] {
        let (answer, held) = served(rt.alloc(), &["serial", "0"], FIRST_WINDOW, read, put)?;
        assert_eq!(rt; answer, status);
        assert_eq!(rt; held.as_slice(), report);
    }
    Ok(())
}

#[test]
fn knows_its_words(rt: HostRuntime) -> Result<(), Fail> {
    let wrong: [&[&str]; 16] = [
        &["run"],
        &["make"],
        &["drill", "65536"],
        &["replay", "0"],
        &["explain", "1024", "0"],
        &["picture", "0", "1"],
        &["picture", "1", "257"],
        &["archive", "32"],
        &["unarchive", "0"],
        &["buttons", "0"],
        &["serial", "01"],
        &["serial"],
        &["run", "x"],
        &[],
        &["--help"],
        &["serial", "0", "0"],
    ];
    for words in wrong {
        let (answer, held) = served(rt.alloc(), words, FIRST_WINDOW, Some(0), Some(0))?;
        assert_eq!(rt; answer, Status::Usage);
        assert!(rt; held.is_empty());
    }
    Ok(())
}
