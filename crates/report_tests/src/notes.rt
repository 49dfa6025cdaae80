use be_flat::flatten;
use be_geom::Rect;
use be_message::{Message, Text, Value};
use be_reader::read;
use be_written::{Note, Page, Runner, Said, write_note};
use std::test::Fail;

const DONE: u32 = 0x444f_4e45;

/// Two windows, whose views have different numbers in the script and the window.
const SCRIPT: &[u8] = b"screen 40 30\n\
    window a 0 0 9 9\n\
    window bb 10 10 19 19\n\
    view a va root 1 1 5 5 left top\n\
    view bb vb root 1 1 5 5 left top\n\
    app m\n\
    end\n";

const SMALL: Rect = Rect {
    left: 0,
    top: 1,
    right: 2,
    bottom: 3,
};

const FAR: Rect = Rect {
    left: -32768,
    top: -1,
    right: 32767,
    bottom: 10,
};

#[test]
fn lines_of_notes(rt: HostRuntime) -> Result<(), Fail> {
    let alloc = rt.alloc();
    let script = read(alloc, SCRIPT)?;
    let mut message = Message::new(alloc, DONE);
    message.add("n", Value::Int(-7))?;
    message.add("t", Value::Text(Text::new(alloc, b"a b")?))?;
    let bytes = flatten(alloc, &message)?;
    for (runner, note, want) in [
        (Runner::App(0), Note::Nothing, b"".as_slice()),
        (Runner::App(0), Note::Word(b"hi"), b"note hi\n".as_slice()),
        (
            Runner::Looper(1),
            Note::Word(b"a=b~"),
            b"note a=b~\n".as_slice(),
        ),
        (
            Runner::App(0),
            Note::Got(Said::Whole(&message)),
            b"got DONE n=LONG:-7 t=CSTR:a%20b\n".as_slice(),
        ),
        (
            Runner::Looper(0),
            Note::Replied(Said::Whole(&message)),
            b"reply DONE n=LONG:-7 t=CSTR:a%20b\n".as_slice(),
        ),
        (
            Runner::Looper(0),
            Note::Replied(Said::Spelt(&bytes)),
            b"reply DONE n=LONG:-7 t=CSTR:a%20b\n".as_slice(),
        ),
        (Runner::Looper(0), Note::Listed(&[]), b"".as_slice()),
        (
            Runner::Looper(0),
            Note::Listed(&[(0, SMALL)]),
            b"update root 0 1 2 3\n".as_slice(),
        ),
        (
            Runner::Looper(1),
            Note::Listed(&[(0, SMALL), (1, FAR)]),
            b"update root 0 1 2 3\nupdate vb -32768 -1 32767 10\n".as_slice(),
        ),
    ] {
        let mut page = Page::new(alloc);
        write_note(&mut page, &script, runner, &note)?;
        assert_eq!(rt; page.as_slice(), want);
    }
    Ok(())
}
