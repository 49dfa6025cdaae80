use be_command::{Command, CommandFault, NameFault, Names, Reason, read_command, write_command};
use std::alloc::Global;
use std::process::Abort;
use std::test::Fail;

/// Two windows, the root view and two others, and a bitmap.
fn names(alloc: Global) -> Result<Names, NameFault> {
    let mut names = Names::new(alloc);
    names.add_window("term")?;
    names.add_window("edit")?;
    names.add_view("pad")?;
    names.add_view("ok")?;
    names.add_bitmap("pic")?;
    Ok(names)
}

/// Asserts that a line is read, and is written so.
fn assert_written(rt: &impl Abort, names: &Names, alloc: Global, line: &str, written: &str) {
    let command = read_command(alloc, line.as_bytes(), names).expect(rt, "a command");
    let again = write_command(alloc, &command, names).expect(rt, "memory");
    same!(rt; again.as_slice(), written.as_bytes(), line);
}

/// Asserts that lines are read, and are written so.
fn assert_all_written(rt: &impl Abort, alloc: Global, lines: &[(&str, &str)]) {
    let names = names(alloc).expect(rt, "names");
    for (line, written) in lines {
        assert_written(rt, &names, alloc, line, written);
    }
}

/// Asserts that a line is read as a command, told as `{:?}` tells it.
fn assert_command(rt: &impl Abort, names: &Names, alloc: Global, line: &str, told: &str) {
    let command = read_command(alloc, line.as_bytes(), names).expect(rt, "a command");
    let text = format!(in alloc; "{command:?}").expect(rt, "memory");
    same!(rt; text.as_str(), told, line);
}

/// Asserts that lines are read as commands.
fn assert_commands(rt: &impl Abort, alloc: Global, lines: &[(&str, &str)]) {
    let names = names(alloc).expect(rt, "names");
    for (line, told) in lines {
        assert_command(rt, &names, alloc, line, told);
    }
}

/// Asserts that lines are refused, each for this reason at this word.
fn assert_refused(rt: &impl Abort, alloc: Global, reason: Reason, lines: &[(&str, usize)]) {
    let names = names(alloc).expect(rt, "names");
    for (line, at) in lines {
        let fault = CommandFault::BadCommand { at: *at, reason };
        let read = read_command(alloc, line.as_bytes(), &names).err();
        same!(rt; read, Some(fault), line);
    }
}

const FIGURES: [(&str, &str); 9] = [
    (
        "fill root 0 0 1 1 ffffffffffffffff",
        "fill root 0 0 1 1 high",
    ),
    (
        "fill root 0 0 1 1 aa55aa55aa55aa55",
        "fill root 0 0 1 1 mixed",
    ),
    (
        "  fill  pad 3 4 1  2  0000000000000000 ",
        "fill pad 3 4 1 2 low",
    ),
    (
        "frame ok 1 2 3 4 55aa55aa55aa55aa",
        "frame ok 1 2 3 4 55aa55aa55aa55aa",
    ),
    ("line root 0 0 -5 6 mixed", "line root 0 0 -5 6 mixed"),
    ("text pad hello", "text pad hello"),
    ("  text   pad  two  words ", "text pad  two  words "),
    ("text pad ", "text pad "),
    ("bitmap root pic 3 -4", "bitmap root pic 3 -4"),
];

#[test]
fn figures_are_read_and_written(rt: HostRuntime) {
    assert_all_written(&rt, rt.alloc(), &FIGURES);
}

const SETTINGS: [(&str, &str); 20] = [
    ("high root clear", "high root clear"),
    ("high root 000000", "high root 000000"),
    ("low ok ffffff", "low ok ffffff"),
    ("viewcolor pad 0a0b0c", "viewcolor pad 0a0b0c"),
    ("mode root copy", "mode root copy"),
    ("mode root over", "mode root over"),
    ("mode root erase", "mode root erase"),
    ("mode root invert", "mode root invert"),
    ("mode root add", "mode root add"),
    ("mode root subtract", "mode root subtract"),
    ("mode root blend", "mode root blend"),
    ("mode root min", "mode root min"),
    ("mode root max", "mode root max"),
    ("mode root select", "mode root select"),
    ("pensize root 1", "pensize root 1"),
    ("pensize root 32", "pensize root 32"),
    ("clip root none", "clip root none"),
    ("clip root 0 0 1 1 5 5 4 4", "clip root 0 0 1 1 5 5 4 4"),
    ("push root", "push root"),
    ("pop pad", "pop pad"),
];

#[test]
fn settings_are_read_and_written(rt: HostRuntime) {
    assert_all_written(&rt, rt.alloc(), &SETTINGS);
}

const ENDS: [(&str, &str); 8] = [
    ("pen root -32768 32767", "pen root -32768 32767"),
    ("origin ok 32767 -32768", "origin ok 32767 -32768"),
    ("moveto -32768 32767", "moveto -32768 32767"),
    ("moveby -65535 65535", "moveby -65535 65535"),
    ("moveby 65535 -65535", "moveby 65535 -65535"),
    ("resizeto 0 32767", "resizeto 0 32767"),
    ("resizeto 32767 0", "resizeto 32767 0"),
    (
        "invalidate pad -32768 32767 32767 -32768",
        "invalidate pad -32768 32767 32767 -32768",
    ),
];

#[test]
fn numbers_are_read_to_their_ends(rt: HostRuntime) {
    assert_all_written(&rt, rt.alloc(), &ENDS);
}

const CHANGES: [(&str, &str); 9] = [
    ("copybits root 0 0 9 9 20 21", "copybits root 0 0 9 9 20 21"),
    ("show", "show"),
    (" hide ", "hide"),
    ("activate", "activate"),
    ("behind edit", "behind edit"),
    ("focus none", "focus none"),
    ("focus root", "focus root"),
    ("focus pad", "focus pad"),
    ("close", "close"),
];

#[test]
fn changes_are_read_and_written(rt: HostRuntime) {
    assert_all_written(&rt, rt.alloc(), &CHANGES);
}

const TOLD: [(&str, &str); 9] = [
    (
        "line pad 1 2 3 4 0102030405060708",
        "Line(1, Point { x: 1, y: 2 }, Point { x: 3, y: 4 }, \
         Pattern { rows: [1, 2, 3, 4, 5, 6, 7, 8] })",
    ),
    (
        "copybits ok 1 2 3 4 5 6",
        "CopyBits(2, Rect { left: 1, top: 2, right: 3, bottom: 4 }, Point { x: 5, y: 6 })",
    ),
    ("bitmap ok pic 5 6", "Bitmap(2, 0, Point { x: 5, y: 6 })"),
    (
        "high root 0a0b0c",
        "High(0, Solid(Rgb { red: 10, green: 11, blue: 12 }))",
    ),
    ("moveby -1 2", "Change(MoveBy(-1, 2))"),
    ("resizeto 3 4", "Change(ResizeTo(3, 4))"),
    ("behind edit", "Change(Behind(1))"),
    ("focus ok", "Change(Focus(Some(2)))"),
    ("focus none", "Change(Focus(None))"),
];

#[test]
fn words_stand_for_what_they_say(rt: HostRuntime) {
    assert_commands(&rt, rt.alloc(), &TOLD);
}

const UNKNOWN_WORDS: [(&str, usize); 8] = [
    ("fil root", 0),
    ("FILL root 0 0 1 1 high", 0),
    ("", 0),
    ("  ", 0),
    ("# fill root 0 0 1 1 high", 0),
    ("note x", 0),
    ("close\t", 0),
    ("fill32768", 0),
];

#[test]
fn other_lines_have_unknown_words(rt: HostRuntime) {
    assert_refused(&rt, rt.alloc(), Reason::UnknownWord, &UNKNOWN_WORDS);
}

const MISSING_WORDS: [(&str, usize); 13] = [
    ("fill root 0 0 1", 5),
    ("fill root 0 0 1 1", 6),
    ("fill root 0 0 1 1 high low", 7),
    ("text", 1),
    ("text pad", 2),
    ("push", 1),
    ("pop root root", 2),
    ("clip root", 2),
    ("clip root none 0", 3),
    ("clip root 0 0 1", 5),
    ("clip root 0 0 1 1 5", 7),
    ("show now", 1),
    ("moveto 0", 2),
];

#[test]
fn words_are_missing_or_too_many(rt: HostRuntime) {
    assert_refused(&rt, rt.alloc(), Reason::Shape, &MISSING_WORDS);
}

const BAD_WORDS: [(&str, usize); 15] = [
    ("fill root 0 -0 01 +1 high", 3),
    ("fill root 0 0 1 1 fffffffffffffff", 6),
    ("fill root 0 0 1 1 fffffffffffffffff", 6),
    ("fill root 0 0 1 1 ffffffffffffffF0", 6),
    ("high root 77747", 2),
    ("high root 7774770", 2),
    ("high root ------", 2),
    ("mode root alpha", 2),
    ("push abcdefghijklmnopq", 1),
    ("push 1a", 1),
    ("focus Root", 1),
    ("text pad caf\u{e9}", 2),
    ("text pad \u{7f}", 2),
    ("text pad a\tb", 2),
    ("clip root 0 0 1 none", 5),
];

#[test]
fn words_have_their_form(rt: HostRuntime) {
    assert_refused(&rt, rt.alloc(), Reason::Shape, &BAD_WORDS);
}

const PAST_THE_ENDS: [(&str, usize); 12] = [
    ("pen root -32769 0", 2),
    ("pen root 0 32768", 3),
    ("pen root 99999999999999999999 0", 2),
    ("moveto 32768 0", 1),
    ("moveby -65536 0", 1),
    ("moveby 0 65536", 2),
    ("resizeto 0 -1", 2),
    ("resizeto 32768 0", 1),
    ("pensize root 0", 2),
    ("pensize root 33", 2),
    ("pensize root -1", 2),
    ("clip root 0 0 1 32768", 5),
];

#[test]
fn numbers_end_at_their_range(rt: HostRuntime) {
    assert_refused(&rt, rt.alloc(), Reason::Range, &PAST_THE_ENDS);
}

const UNKNOWN_NAMES: [(&str, usize); 8] = [
    ("fill nobody 0 0 1 1 high", 1),
    ("text nobody hello", 1),
    ("bitmap root nothing 0 0", 2),
    ("bitmap pic pad 0 0", 1),
    ("behind root", 1),
    ("behind pad", 1),
    ("focus window", 1),
    ("push abcdefghijklmnop", 1),
];

#[test]
fn names_are_unknown(rt: HostRuntime) {
    assert_refused(&rt, rt.alloc(), Reason::UnknownName, &UNKNOWN_NAMES);
}

#[test]
fn the_first_reason_counts(rt: HostRuntime) {
    let unknown = [("fil nobody 32768 0 1 1 hi", 0)];
    assert_refused(&rt, rt.alloc(), Reason::UnknownWord, &unknown);
    let shape = [("fill nobody 32768 0 1 1 hi", 6), ("pen nobody 32768", 3)];
    assert_refused(&rt, rt.alloc(), Reason::Shape, &shape);
    let range = [
        ("fill nobody 32768 0 -32769 1 high", 2),
        ("fill nobody 0 0 1 -32769 high", 5),
    ];
    assert_refused(&rt, rt.alloc(), Reason::Range, &range);
    let name = [("bitmap nobody nothing 0 0", 1)];
    assert_refused(&rt, rt.alloc(), Reason::UnknownName, &name);
}

/// A text of so many letters, as a line of the view `pad`.
fn text_line(alloc: Global, letters: usize) -> Result<String, Fail> {
    let mut line = String::from_str(alloc, "text pad ")?;
    for _ in 0..letters {
        line.push_str("x")?;
    }
    Ok(line)
}

#[test]
fn texts_have_at_most_256_bytes(rt: HostRuntime) -> Result<(), Fail> {
    let names = names(rt.alloc())?;
    let longest = text_line(rt.alloc(), 256)?;
    assert_written(&rt, &names, rt.alloc(), longest.as_str(), longest.as_str());
    let longer = text_line(rt.alloc(), 257)?;
    assert_refused(&rt, rt.alloc(), Reason::Shape, &[(longer.as_str(), 2)]);
    Ok(())
}

/// A clip of so many rectangles of 4 by 4 pixels, all the same.
fn clip_line(alloc: Global, rects: usize) -> Result<String, Fail> {
    let mut line = String::from_str(alloc, "clip root")?;
    for _ in 0..rects {
        line.push_str(" 0 0 3 3")?;
    }
    Ok(line)
}

#[test]
fn clips_have_at_most_sixteen_rectangles(rt: HostRuntime) -> Result<(), Fail> {
    let names = names(rt.alloc())?;
    let most = clip_line(rt.alloc(), 16)?;
    assert_written(&rt, &names, rt.alloc(), most.as_str(), most.as_str());
    let more = clip_line(rt.alloc(), 17)?;
    assert_refused(&rt, rt.alloc(), Reason::Shape, &[(more.as_str(), 66)]);
    Ok(())
}

#[test]
fn a_clip_has_the_pixels_of_its_rectangles(rt: HostRuntime) -> Result<(), Fail> {
    let names = names(rt.alloc())?;
    let command = read_command(rt.alloc(), b"clip root 0 0 3 3 2 2 4 4 9 0 8 5", &names)?;
    let Command::Clip(0, Some(clip)) = command else {
        return Err("no clip")?;
    };
    let region = clip.into_region();
    for (x, y, inside) in [
        (0, 0, true),
        (3, 3, true),
        (4, 4, true),
        (4, 1, false),
        (8, 1, false),
    ] {
        same!(rt; region.contains(x, y), inside, (x, y));
    }
    Ok(())
}

const REFUSED_NAMES: [(&str, NameFault); 9] = [
    ("", NameFault::BadName),
    ("1a", NameFault::BadName),
    ("A", NameFault::BadName),
    ("a-b", NameFault::BadName),
    ("abcdefghijklmnopq", NameFault::BadName),
    ("window", NameFault::NameTaken),
    ("root", NameFault::NameTaken),
    ("common", NameFault::NameTaken),
    ("none", NameFault::NameTaken),
];

#[test]
fn names_that_are_refused(rt: HostRuntime) {
    let mut names = Names::new(rt.alloc());
    for (name, fault) in &REFUSED_NAMES {
        same!(rt; names.add_view(name), Err(*fault), *name);
    }
    same!(rt; names.add_view("abcdefghijklmnop"), Ok(1));
    same!(rt; names.add_view("abcdefghijklmnop"), Err(NameFault::NameTaken));
    same!(rt; names.add_window("abcdefghijklmnop"), Ok(0));
}

#[test]
fn windows_are_32(rt: HostRuntime) -> Result<(), Fail> {
    let mut names = Names::new(rt.alloc());
    for number in 0..32u16 {
        let name = format!(in rt.alloc(); "w{number}")?;
        same!(rt; names.add_window(name.as_str()), Ok(number));
    }
    same!(rt; names.add_window("w0"), Err(NameFault::NameTaken));
    same!(rt; names.add_window("w32"), Err(NameFault::TooMany));
    Ok(())
}

#[test]
fn views_are_31_beside_the_root(rt: HostRuntime) -> Result<(), Fail> {
    let mut names = Names::new(rt.alloc());
    for number in 1..32u16 {
        let name = format!(in rt.alloc(); "v{number}")?;
        same!(rt; names.add_view(name.as_str()), Ok(number));
    }
    same!(rt; names.add_view("v1"), Err(NameFault::NameTaken));
    same!(rt; names.add_view("v32"), Err(NameFault::TooMany));
    Ok(())
}

#[test]
fn bitmaps_are_64(rt: HostRuntime) -> Result<(), Fail> {
    let mut names = Names::new(rt.alloc());
    for number in 0..64u16 {
        let name = format!(in rt.alloc(); "b{number}")?;
        same!(rt; names.add_bitmap(name.as_str()), Ok(number));
    }
    same!(rt; names.add_bitmap("b0"), Err(NameFault::NameTaken));
    same!(rt; names.add_bitmap("b64"), Err(NameFault::TooMany));
    Ok(())
}

/// Asserts that a copy of a line's command is written as the line.
fn assert_copied(rt: &impl Abort, names: &Names, alloc: Global, line: &str) {
    let command = read_command(alloc, line.as_bytes(), names).expect(rt, "a command");
    let copy = command.copy(alloc).expect(rt, "memory");
    let written = write_command(alloc, &copy, names).expect(rt, "memory");
    same!(rt; written.as_slice(), line.as_bytes(), line);
}

const COPIED: [&str; 20] = [
    "fill pad 3 4 1 2 low",
    "frame ok 1 2 3 4 55aa55aa55aa55aa",
    "line root 0 0 -5 6 mixed",
    "text pad  two  words ",
    "text pad ",
    "bitmap root pic 3 -4",
    "high root clear",
    "low ok ffffff",
    "viewcolor pad 0a0b0c",
    "mode root blend",
    "pensize root 32",
    "pen root -32768 32767",
    "origin ok 32767 -32768",
    "clip root none",
    "clip root 0 0 1 1 5 5 4 4",
    "push root",
    "pop pad",
    "copybits root 0 0 9 9 20 21",
    "invalidate pad -1 2 3 -4",
    "behind edit",
];

#[test]
fn each_command_is_copied(rt: HostRuntime) {
    let alloc = rt.alloc();
    let names = names(alloc).expect(&rt, "names");
    for line in &COPIED {
        assert_copied(&rt, &names, alloc, line);
    }
    let copy = Command::EndUpdate.copy(alloc).expect(&rt, "memory");
    assert!(rt; matches!(copy, Command::EndUpdate));
}

const FOUND: [(&[u8], Option<u16>, Option<u16>, Option<u16>); 5] = [
    (b"term", Some(0), None, None),
    (b"edit", Some(1), None, None),
    (b"root", None, Some(0), None),
    (b"ok", None, Some(2), None),
    (b"pic", None, None, Some(0)),
];

#[test]
fn numbers_are_found_by_names(rt: HostRuntime) {
    let names = names(rt.alloc()).expect(&rt, "names");
    for (name, window, view, bitmap) in &FOUND {
        let found = (names.window(name), names.view(name), names.bitmap(name));
        same!(rt; found, (*window, *view, *bitmap), *name);
    }
}
