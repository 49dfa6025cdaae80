use crate::bare::script;
use be_flat::flatten;
use be_geom::{Point, Rect};
use be_message::{Message, Text, Value};
use be_written::{Note, Page, Runner, Said, write_message, write_note};
use std::alloc::Global;
use std::test::Fail;

const PING: u32 = 0x5049_4e47;

const PONG: u32 = 0x504f_4e47;

fn with(alloc: Global, what: u32, name: &str, values: [Value; 2]) -> Result<Message, Fail> {
    let mut message = Message::new(alloc, what);
    for value in values {
        message.add(name, value)?;
    }
    Ok(message)
}

fn written(alloc: Global, message: &Message) -> Result<Page, Fail> {
    let mut page = Page::new(alloc);
    write_message(&mut page, message)?;
    Ok(page)
}

/// The line of a message that was got, from the bytes that spell it.
fn spelt(alloc: Global, message: &Message) -> Result<Page, Fail> {
    let bytes = flatten(alloc, message)?;
    let script = script(alloc);
    let mut page = Page::new(alloc);
    write_note(
        &mut page,
        &script,
        Runner::App(0),
        &Note::Got(Said::Spelt(&bytes)),
    )?;
    Ok(page)
}

fn text(alloc: Global, bytes: &[u8]) -> Result<Value, Fail> {
    Ok(Value::Text(Text::new(alloc, bytes)?))
}

fn within(alloc: Global, message: Message) -> Result<Value, Fail> {
    Ok(Value::Message(Box::new(alloc, message)?))
}

#[test]
fn a_message_without_fields_is_its_word(rt: HostRuntime) -> Result<(), Fail> {
    let page = written(rt.alloc(), &Message::new(rt.alloc(), PING))?;
    assert_eq!(rt; page.as_slice(), b"PING".as_slice());
    Ok(())
}

#[test]
fn values_of_each_type(rt: HostRuntime) -> Result<(), Fail> {
    let alloc = rt.alloc();
    let point = Value::Point(Point { x: -2, y: 258 });
    let corner = Value::Point(Point {
        x: -32768,
        y: 32767,
    });
    let rect = Value::Rect(Rect {
        left: 0,
        top: 1,
        right: -1,
        bottom: 513,
    });
    let no_rect = Value::Rect(Rect {
        left: 1,
        top: -32768,
        right: 0,
        bottom: 0,
    });
    let empty = within(alloc, Message::new(alloc, PONG))?;
    let inner = with(alloc, PING, "i", [Value::Int(7), Value::Int(8)])?;
    let full = within(
        alloc,
        with(alloc, PONG, "j", [empty, within(alloc, inner)?])?,
    )?;
    let plain = within(alloc, Message::new(alloc, PING))?;
    for (values, want) in [
        (
            [Value::Bool(true), Value::Bool(false)],
            b"PING n=BOOL:true,false".as_slice(),
        ),
        (
            [Value::Int(0), Value::Int(-2)],
            b"PING n=LONG:0,-2".as_slice(),
        ),
        (
            [Value::Int(i32::MIN), Value::Int(i32::MAX)],
            b"PING n=LONG:-2147483648,2147483647".as_slice(),
        ),
        (
            [text(alloc, b"a b,c%")?, text(alloc, b"")?],
            b"PING n=CSTR:a%20b%2Cc%25,".as_slice(),
        ),
        (
            [text(alloc, b"")?, text(alloc, b"(/=:~")?],
            b"PING n=CSTR:,(/=:~".as_slice(),
        ),
        (
            [point, corner],
            b"PING n=BPNT:-2/258,-32768/32767".as_slice(),
        ),
        (
            [rect, no_rect],
            b"PING n=RECT:0/1/-1/513,1/-32768/0/0".as_slice(),
        ),
        (
            [plain, full],
            b"PING n=MSGG:(PING),(PONG j=MSGG:(PONG),(PING i=LONG:7,8))".as_slice(),
        ),
    ] {
        let message = with(alloc, PING, "n", values)?;
        assert_eq!(rt; written(alloc, &message)?.as_slice(), want);
        let mut line = Page::new(alloc);
        line.text(b"got ")?;
        line.text(want)?;
        line.end_line()?;
        assert_eq!(rt; spelt(alloc, &message)?.as_slice(), line.as_slice());
    }
    Ok(())
}

#[test]
fn fields_stand_in_the_order_of_first_adding(rt: HostRuntime) -> Result<(), Fail> {
    let alloc = rt.alloc();
    let mut message = Message::new(alloc, PONG);
    for (name, value) in [
        ("zz", Value::Int(1)),
        ("a_1", Value::Bool(true)),
        ("zz", Value::Int(2)),
    ] {
        message.add(name, value)?;
    }
    let page = written(alloc, &message)?;
    assert_eq!(rt;
        page.as_slice(),
        b"PONG zz=LONG:1,2 a_1=BOOL:true".as_slice()
    );
    Ok(())
}
