use be_geom::Point;
use be_message::{Message, Target, Value};
use be_pressed::{TakenLetter, pressed};
use be_reader::read;
use std::alloc::Global;
use std::test::Fail;

/// The characters of `MDWN`, of `MUP_` and of `MMOV`.
const DOWN: u32 = 0x4d44_574e;

const UP: u32 = 0x4d55_505f;

const MOVED: u32 = 0x4d4d_4f56;

const ROOT: Target = Target::View(0);

/// The views of the window a.
const K: Target = Target::View(1);

const WIDE: Target = Target::View(2);

const EMPTY: Target = Target::View(3);

/// Two windows, whose views have different numbers in the script and the window.
const SCRIPT: &[u8] = b"screen 40 30\n\
    window a 0 0 9 9\n\
    window bb 10 10 19 19\n\
    view bb k root 1 0 2 0 left top\n\
    view a k root 1 0 2 0 left top\n\
    view a wide root -32768 0 32767 0 left top\n\
    view a empty root 3 0 2 0 left top\n";

/// The window of a letter, its target, its word, the column that it tells, and its `transit`.
type Row = (u16, Target, u32, i16, i32);

fn letter(alloc: Global, row: Row, number: u64) -> Result<TakenLetter, Fail> {
    let (window, target, what, x, transit) = row;
    let mut message = Message::new(alloc, what);
    message.add("where", Value::Point(Point { x, y: 0 }))?;
    message.add("transit", Value::Int(transit))?;
    Ok(TakenLetter {
        window,
        number,
        target,
        message,
    })
}

/// What is written of letters that are numbered from 1.
fn written(alloc: Global, rows: &[Row]) -> Result<Vec<u8>, Fail> {
    let script = read(alloc, SCRIPT)?;
    let mut letters = Vec::new(alloc);
    for (place, row) in rows.iter().enumerate() {
        letters.push(letter(alloc, *row, place as u64 + 1)?)?;
    }
    Ok(pressed(alloc, &script, &letters)?)
}

#[test]
fn a_press_invokes_where_it_ends_inside(rt: HostRuntime) -> Result<(), Fail> {
    let rows = [
        (0, K, DOWN, 0, 0),
        (0, K, UP, 1, 0),
        (0, K, DOWN, 0, 0),
        (0, ROOT, UP, 0, 0),
        (0, K, UP, 0, 0),
        (0, ROOT, DOWN, 9, 0),
        (0, ROOT, UP, 0, 0),
        (0, WIDE, DOWN, 32767, 0),
        (0, WIDE, UP, 32767, 0),
    ];
    let text = written(rt.alloc(), &rows)?;
    assert_eq!(rt; text.as_slice(), b"a k 2\na root 7\na wide 9\n".as_slice());
    Ok(())
}

#[test]
fn each_window_hears_its_own_letters(rt: HostRuntime) -> Result<(), Fail> {
    let rows = [
        (0, K, DOWN, 0, 0),
        (1, K, DOWN, 0, 0),
        (0, K, UP, 0, 0),
        (1, ROOT, DOWN, 0, 0),
        (1, K, UP, 0, 0),
        (1, K, DOWN, 0, 0),
        (0, K, UP, 0, 0),
        (1, K, UP, 0, 0),
    ];
    let text = written(rt.alloc(), &rows)?;
    assert_eq!(rt; text.as_slice(), b"a k 3\nbb k 8\n".as_slice());
    Ok(())
}

#[test]
fn presses_that_come_to_nothing(rt: HostRuntime) -> Result<(), Fail> {
    let alloc = rt.alloc();
    for (between, want) in [
        ((0, K, MOVED, 0, 1), b"a k 3\n".as_slice()),
        ((0, ROOT, MOVED, 0, 2), b"a k 3\n".as_slice()),
        ((1, K, UP, 0, 0), b"a k 3\n".as_slice()),
        ((0, K, MOVED, 0, 2), b"".as_slice()),
        ((0, K, DOWN, 2, 0), b"".as_slice()),
        ((0, Target::Window, UP, 0, 0), b"".as_slice()),
        ((0, Target::Plain(1), DOWN, 0, 0), b"".as_slice()),
    ] {
        let rows = [(0, K, DOWN, 0, 0), between, (0, K, UP, 0, 0)];
        let text = written(alloc, &rows)?;
        assert_eq!(rt; text.as_slice(), want);
    }
    for (target, x) in [(EMPTY, 0), (Target::View(4), 0), (ROOT, 10), (ROOT, -1)] {
        let rows = [(0, target, DOWN, x, 0), (0, target, UP, x, 0)];
        let text = written(alloc, &rows)?;
        assert_eq!(rt; text.as_slice(), b"".as_slice());
    }
    let nowhere = written(alloc, &[(2, K, DOWN, 0, 0), (2, K, UP, 0, 0)])?;
    assert_eq!(rt; nowhere.as_slice(), b"".as_slice());
    Ok(())
}
