use be_command::Reason;
use be_machine::Entry;
use be_reader::{ScriptFault, read};
use be_report::read_history;
use be_written::{Page, write_history};
use std::alloc::{AllocError, Global};
use std::test::Fail;

/// Two windows and two applications; a window and an application have one name.
const SCRIPT: &[u8] = b"screen 4 3\nwindow a 0 0 1 1\nwindow bb 2 2 3 3\napp m\nend\napp a\nend\n";

fn history(alloc: Global, bytes: &[u8]) -> Result<Vec<Entry>, ScriptFault> {
    let script = read(alloc, SCRIPT)?;
    read_history(alloc, bytes, &script)
}

fn written(alloc: Global, history: &[Entry]) -> Result<Page, Fail> {
    let script = read(alloc, SCRIPT)?;
    let mut page = Page::new(alloc);
    write_history(&mut page, &script, history)?;
    Ok(page)
}

/// How many entries are told, or the first fault.
fn verdict(alloc: Global, bytes: &[u8]) -> Result<usize, ScriptFault> {
    Ok(history(alloc, bytes)?.len())
}

fn broken(line: u64) -> Result<usize, ScriptFault> {
    Err(ScriptFault::At {
        line,
        reason: Reason::BadEntry,
    })
}

/// The history of one entry with these words behind its number.
fn of_one(alloc: Global, words: &str) -> Result<String, AllocError> {
    format!(in alloc; "history 1\n1 {words}\ntraces\n")
}

#[test]
fn each_kind_of_entry(rt: HostRuntime) -> Result<(), Fail> {
    let alloc = rt.alloc();
    for (words, want) in [
        (
            "app:m post bb ok 18446744073709551615",
            "0 Post(1, Accepted(18446744073709551615))",
        ),
        (
            "app:a post a wouldblock 4294967295",
            "1 Post(0, WouldBlock(4294967295))",
        ),
        ("loop:a post a badport", "2 Post(0, BadPort)"),
        ("loop:bb post bb toodeep", "4 Post(1, TooDeep)"),
        ("loop:bb take 0", "4 Take(0)"),
        ("app:m note a=b", "0 Note(Text { bytes: [97, 61, 98] })"),
        ("loop:a reply ok", "2 Reply(Accepted)"),
        ("loop:a reply duplicate", "2 Reply(Duplicate)"),
        ("loop:a reply unwanted", "2 Reply(Unwanted)"),
        ("app:m claim reply", "0 Claim(Reply)"),
        ("app:m claim noreply", "0 Claim(NoReply)"),
        ("app:m claim unknown", "0 Claim(Unknown)"),
        ("app:m lock a", "0 Lock(0)"),
        ("app:m unlock bb", "0 Unlock(1)"),
        ("app:m draw bb 33", "0 Draw(1, 33)"),
        ("app:m flush a 32", "0 Flush(0, 32)"),
        ("app:m syncdone bb", "0 SyncDone(1)"),
        ("twin:a exec 1 done", "3 Exec(1, Done)"),
        ("twin:a exec 2 stackfull", "3 Exec(2, StackFull)"),
        ("twin:a exec 3 stackempty", "3 Exec(3, StackEmpty)"),
        ("twin:a exec 4 noview", "3 Exec(4, NoView)"),
        ("twin:bb exec 5 nobitmap", "5 Exec(5, NoBitmap)"),
        ("twin:bb exec 6 offrange", "5 Exec(6, OffRange)"),
        ("twin:bb exec 7 gone", "5 Exec(7, Gone)"),
        ("twin:bb notify 9", "5 Notify(9)"),
        ("loop:bb begin open", "4 Begin(true)"),
        ("loop:bb begin nothing", "4 Begin(false)"),
        ("input event 1", "6 Event(1, None, None)"),
        (
            "input event 2 a ok 1",
            "6 Event(2, Some((0, Accepted(1))), None)",
        ),
        (
            "input event 3 bb badport a wouldblock 100",
            "6 Event(3, Some((1, BadPort)), Some((0, WouldBlock(100))))",
        ),
        ("loop:a end none", "2 End(Nothing)"),
        ("loop:a end noreply", "2 End(NoReply)"),
        ("loop:a end unknown", "2 End(Unknown)"),
        ("stop stop", "7 Stop"),
    ] {
        let text = of_one(alloc, words)?;
        let mut told = history(alloc, text.as_bytes())?;
        let lines = format!(in alloc; "history 1\n1 {words}\n")?;
        assert_eq!(rt; written(alloc, &told)?.as_slice(), lines.as_bytes());
        let Entry { actor, act } = told.pop().ok_or("no entry")?;
        let shown = format!(in alloc; "{actor} {act:?}")?;
        assert_eq!(rt; shown.as_str(), want);
    }
    Ok(())
}

#[test]
fn entries_in_their_order(rt: HostRuntime) -> Result<(), Fail> {
    let alloc = rt.alloc();
    for lines in [
        "history 0\n",
        "history 3\n1 app:m lock a\n2 loop:bb take 7\n3 app:m unlock a\n",
    ] {
        let text = format!(in alloc; "{lines}traces\n")?;
        let told = history(alloc, text.as_bytes())?;
        assert_eq!(rt; written(alloc, &told)?.as_slice(), lines.as_bytes());
    }
    Ok(())
}

#[test]
fn each_field_wrong(rt: HostRuntime) -> Result<(), Fail> {
    let alloc = rt.alloc();
    for words in [
        "",
        "stop",
        "app:x stop",
        "app:bb stop",
        "loop:m take 1",
        "twin:x notify 1",
        "app: stop",
        "a stop",
        "inputs stop",
        "stop: stop",
        "app:m jump",
        "app:m post",
        "app:m post c ok 1",
        "app:m post m ok 1",
        "app:m post a",
        "app:m post a ok",
        "app:m post a ok x",
        "app:m post a ok 18446744073709551616",
        "app:m post a wouldblock 4294967296",
        "app:m post a badport 1",
        "app:m post a full",
        "loop:a take",
        "loop:a take -1",
        "loop:a take +1",
        "loop:a take 01",
        "loop:a take 18446744073709551616",
        "loop:a take 1 2",
        "app:m note",
        "app:m note 123456789012345678901234567890123",
        "app:m note x y",
        "loop:a reply",
        "loop:a reply yes",
        "app:m claim ok",
        "app:m lock",
        "app:m lock root",
        "app:m unlock c",
        "app:m draw a",
        "app:m draw a x",
        "app:m draw 1 a",
        "app:m flush a 4294967296",
        "app:m syncdone",
        "twin:a exec 1",
        "twin:a exec 1 undone",
        "twin:a exec done 1",
        "twin:a notify x",
        "loop:a begin",
        "loop:a begin closed",
        "input event",
        "input event 1 a",
        "input event 1 a ok",
        "input event 1 c ok 1",
        "input event 1 a ok 1 bb ok 1 a ok 2",
        "loop:a end",
        "loop:a end reply",
        "stop stop now",
        " stop stop",
        "stop  stop",
        "stop stop ",
        "stop stop\r",
        "stop\tstop",
        "Stop stop",
    ] {
        let text = of_one(alloc, words)?;
        assert_eq!(rt; verdict(alloc, text.as_bytes()), broken(2), "{words}");
    }
    Ok(())
}

#[test]
fn lines_of_a_history(rt: HostRuntime) -> Result<(), Fail> {
    for (text, want) in [
        (b"history 0\ntraces\n".as_slice(), Ok(0)),
        (b"history 0\ntraces\nhistory 1\n \r".as_slice(), Ok(0)),
        (
            b"history 2\n1 stop stop\n2 input event 1\ntraces\n".as_slice(),
            Ok(2),
        ),
        (b"".as_slice(), broken(1)),
        (b"\n".as_slice(), broken(1)),
        (b"history 0".as_slice(), broken(1)),
        (b"history\n".as_slice(), broken(1)),
        (b"history x\n".as_slice(), broken(1)),
        (b"history -0\ntraces\n".as_slice(), broken(1)),
        (b"history -1\ntraces\n".as_slice(), broken(1)),
        (b"history 00\ntraces\n".as_slice(), broken(1)),
        (b"history 0 0\ntraces\n".as_slice(), broken(1)),
        (b"history  0\ntraces\n".as_slice(), broken(1)),
        (b" history 0\ntraces\n".as_slice(), broken(1)),
        (b"history 0 \ntraces\n".as_slice(), broken(1)),
        (b"history 0\r\ntraces\n".as_slice(), broken(1)),
        (b"\nhistory 0\ntraces\n".as_slice(), broken(1)),
        (b"history 0\n".as_slice(), broken(2)),
        (b"history 0\ntraces".as_slice(), broken(2)),
        (b"history 0\ntraces \n".as_slice(), broken(2)),
        (b"history 0\n\ntraces\n".as_slice(), broken(2)),
        (b"history 0\n1 stop stop\ntraces\n".as_slice(), broken(2)),
        (b"history 1\n0 stop stop\ntraces\n".as_slice(), broken(2)),
        (b"history 1\n2 stop stop\ntraces\n".as_slice(), broken(2)),
        (b"history 1\n01 stop stop\ntraces\n".as_slice(), broken(2)),
        (b"history 1\n1 stop stop".as_slice(), broken(2)),
        (b"history 1\n1 stop stop\n".as_slice(), broken(3)),
        (
            b"history 1\n1 stop stop\n2 stop stop\ntraces\n".as_slice(),
            broken(3),
        ),
        (b"history 2\n1 stop stop\ntraces\n".as_slice(), broken(3)),
        (
            b"history 2\n1 stop stop\n1 stop stop\ntraces\n".as_slice(),
            broken(3),
        ),
        (
            b"history 99999999999999999999999999\n1 stop stop\ntraces\n".as_slice(),
            broken(3),
        ),
    ] {
        assert_eq!(rt; verdict(rt.alloc(), text), want);
    }
    Ok(())
}

#[test]
fn the_first_line_has_a_length(rt: HostRuntime) -> Result<(), Fail> {
    let alloc = rt.alloc();
    for (digits, want) in [(2040, broken(2)), (2041, broken(1))] {
        let mut text = Vec::new(alloc);
        text.extend_from_slice(b"history ")?;
        for _digit in 0..digits {
            text.push(b'9')?;
        }
        text.extend_from_slice(b"\ntraces\n")?;
        assert_eq!(rt; verdict(alloc, &text), want);
    }
    Ok(())
}
