use be_command::{Command, NameFault, Names, Reason};
use be_picture::{PictureFault, Recorder, read_picture, write_picture};
use std::alloc::Global;
use std::process::Abort;
use std::test::Fail;

/// The root view and another, and a bitmap.
fn names(alloc: Global) -> Result<Names, NameFault> {
    let mut names = Names::new(alloc);
    names.add_view("pad")?;
    names.add_bitmap("pic")?;
    Ok(names)
}

/// Asserts that a text is a picture of so many commands, and is written so.
fn assert_picture(rt: &impl Abort, alloc: Global, text: &str, count: usize, written: &str) {
    let names = names(alloc).expect(rt, "names");
    let picture = read_picture(alloc, text.as_bytes(), &names).expect(rt, "a picture");
    assert_eq!(rt; picture.commands().len(), count, "{text}");
    let again = write_picture(alloc, &picture, &names).expect(rt, "memory");
    assert_eq!(rt; again.as_slice(), written.as_bytes(), "{text}");
}

/// Asserts that a text is refused for a reason at a line.
fn assert_refused(rt: &impl Abort, alloc: Global, line: u64, reason: Reason, text: &[u8]) {
    let names = names(alloc).expect(rt, "names");
    let fault = read_picture(alloc, text, &names).err();
    assert_eq!(rt; fault, Some(PictureFault::At { line, reason }), "{text:?}");
}

#[test]
fn pictures_are_read_and_written(rt: HostRuntime) {
    let alloc = rt.alloc();
    assert_picture(&rt, alloc, "", 0, "");
    assert_picture(&rt, alloc, "# nothing\n\n   \r\n", 0, "");
    assert_picture(&rt, alloc, "push root", 1, "push root\n");
    assert_picture(
        &rt,
        alloc,
        "  fill  root 0 0 1 1 ffffffffffffffff \r\n#\npush root\nbitmap root pic 3 -4\npop root\n",
        4,
        "fill root 0 0 1 1 high\npush root\nbitmap root pic 3 -4\npop root\n",
    );
    assert_picture(
        &rt,
        alloc,
        "text root  two  words \n",
        1,
        "text root  two  words \n",
    );
    let row = "fill root 0 0 0 0 high\npush root\nhigh root ff0000\nfill root 1 0 1 0 high\n\
        pop root\nfill root 2 0 9 9 high\n";
    assert_picture(&rt, alloc, row, 6, row);
}

#[test]
fn the_first_reason_of_the_first_faulty_line_is_told(rt: HostRuntime) {
    let alloc = rt.alloc();
    let lines = [
        (1, Reason::BadByte, b"pop\t".as_slice()),
        (2, Reason::BadByte, b"push root\n# \x80\n"),
        (1, Reason::BadByte, b"push root\r"),
        (1, Reason::BadByte, b"push root\r\r\n"),
        (2, Reason::UnknownWord, b"push root\npoppy root\npop root\n"),
        (1, Reason::NotHere, b"pop root"),
        (1, Reason::NotHere, b"pop pad x"),
        (1, Reason::NotHere, b"show"),
        (1, Reason::NotHere, b"note x"),
        (1, Reason::NotHere, b"end"),
        (1, Reason::NotHere, b"row ------"),
        (1, Reason::NotHere, b"window a 0 0 1 1"),
        (1, Reason::NotHere, b"copybits root 0 0 1 1 2 2"),
        (4, Reason::NotHere, b"push root\npop root\n\npop root\n"),
        (1, Reason::Shape, b"fill root 0 0 1 high"),
        (1, Reason::Shape, b"bitmap pic 8 8"),
        (1, Reason::Shape, b"fill nobody 0 0 32768 1 black"),
        (1, Reason::Range, b"fill nobody 0 0 32768 1 high"),
        (1, Reason::Range, b"pensize root 33"),
        (1, Reason::UnknownName, b"fill nobody 0 0 1 1 high"),
        (1, Reason::UnknownName, b"fill pad 0 0 1 1 high"),
        (2, Reason::UnknownName, b"push root\npop pad\n"),
        (1, Reason::UnknownName, b"bitmap root nothing 0 0"),
    ];
    for (line, reason, text) in lines {
        assert_refused(&rt, alloc, line, reason, text);
    }
}

/// A text of so many lines that are the same.
fn lines(alloc: Global, count: usize, line: &str) -> Result<String, Fail> {
    let mut text = String::new(alloc);
    for _line in 0..count {
        text.push_str(line)?;
        text.push('\n')?;
    }
    Ok(text)
}

#[test]
fn limits_are_kept(rt: HostRuntime) -> Result<(), Fail> {
    let alloc = rt.alloc();
    let mut text = lines(alloc, 4096, "pen root 1 2")?;
    assert_picture(&rt, alloc, text.as_str(), 4096, text.as_str());
    text.push_str("# the last\npen root 1 2\n")?;
    assert_refused(&rt, alloc, 4098, Reason::TooMany, text.as_bytes());
    text.push_str("pop root\n")?;
    assert_refused(&rt, alloc, 4098, Reason::TooMany, text.as_bytes());
    let mut pushes = lines(alloc, 15, "push root")?;
    assert_picture(&rt, alloc, pushes.as_str(), 15, pushes.as_str());
    pushes.push_str("push nobody x\n")?;
    assert_refused(&rt, alloc, 16, Reason::NotHere, pushes.as_bytes());
    let mut comment = String::new(alloc);
    for _piece in 0..204 {
        comment.push_str("          ")?;
    }
    comment.push_str("#       ")?;
    assert_picture(&rt, alloc, comment.as_str(), 0, "");
    comment.push_str("\x01")?;
    assert_refused(&rt, alloc, 1, Reason::LongLine, comment.as_bytes());
    Ok(())
}

#[test]
fn a_text_is_at_most_1048576_bytes_long(rt: HostRuntime) -> Result<(), Fail> {
    let alloc = rt.alloc();
    let mut text = lines(alloc, 65536, "               ")?;
    assert_picture(&rt, alloc, text.as_str(), 0, "");
    text.push_str("?")?;
    assert_refused(&rt, alloc, 0, Reason::TooLong, text.as_bytes());
    Ok(())
}

#[test]
fn a_recorded_picture_is_written(rt: HostRuntime) -> Result<(), Fail> {
    let alloc = rt.alloc();
    let mut recorder = Recorder::new(alloc);
    assert!(rt; recorder.record(Command::Push(0)).is_ok());
    assert!(rt; recorder.record(Command::PenSize(0, 7)).is_ok());
    let names = Names::new(alloc);
    let text = write_picture(alloc, &recorder.finish(), &names)?;
    assert_eq!(rt; text.as_slice(), b"push root\npensize root 7\n".as_slice());
    Ok(())
}
