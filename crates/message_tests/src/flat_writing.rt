use be_flat::flatten;
use be_geom::{Point, Rect};
use be_message::{Message, Text, Value};
use std::alloc::Global;
use std::test::Fail;

const PING: u32 = 0x5049_4e47;

fn with(alloc: Global, name: &str, values: [Value; 2]) -> Result<Message, Fail> {
    let mut message = Message::new(alloc, PING);
    for value in values {
        message.add(name, value)?;
    }
    Ok(message)
}

#[test]
fn spells_an_empty_message(rt: HostRuntime) -> Result<(), Fail> {
    let message = Message::new(rt.alloc(), PING);
    let bytes = flatten(rt.alloc(), &message)?;
    same!(rt; bytes.as_slice(), b"GNIP\0".as_slice());
    Ok(())
}

#[test]
fn spells_a_field_of_each_type(rt: HostRuntime) -> Result<(), Fail> {
    let alloc = rt.alloc();
    let text = Value::Text(Text::new(alloc, b"hi")?);
    let no_text = Value::Text(Text::new(alloc, b"")?);
    let point = Value::Point(Point { x: -2, y: 258 });
    let corner = Value::Point(Point {
        x: -32768,
        y: 32767,
    });
    let rect = Value::Rect(Rect {
        left: 0,
        top: 1,
        right: -1,
        bottom: 513,
    });
    let no_rect = Value::Rect(Rect {
        left: 1,
        top: 0,
        right: 0,
        bottom: 0,
    });
    let inner = Value::Message(Box::new(alloc, Message::new(alloc, PING))?);
    let other = Value::Message(Box::new(alloc, Message::new(alloc, 1))?);
    for (values, spelling) in [
        (
            [Value::Bool(true), Value::Bool(false)],
            b"GNIP\x01BOOL\x01n\x02\x01\0".as_slice(),
        ),
        (
            [Value::Int(5), Value::Int(-2)],
            b"GNIP\x01LONG\x01n\x02\x05\0\0\0\xfe\xff\xff\xff".as_slice(),
        ),
        (
            [text, no_text],
            b"GNIP\x01CSTR\x01n\x02\x02\0hi\0\0".as_slice(),
        ),
        (
            [point, corner],
            b"GNIP\x01BPNT\x01n\x02\xfe\xff\x02\x01\0\x80\xff\x7f".as_slice(),
        ),
        (
            [rect, no_rect],
            b"GNIP\x01RECT\x01n\x02\0\0\x01\0\xff\xff\x01\x02\x01\0\0\0\0\0\0\0".as_slice(),
        ),
        (
            [inner, other],
            b"GNIP\x01MSGG\x01n\x02GNIP\0\x01\0\0\0\0".as_slice(),
        ),
    ] {
        let message = with(alloc, "n", values)?;
        let bytes = flatten(alloc, &message)?;
        same!(rt; bytes.as_slice(), spelling);
    }
    Ok(())
}

#[test]
fn spells_fields_in_their_order(rt: HostRuntime) -> Result<(), Fail> {
    let mut message = Message::new(rt.alloc(), PING);
    message.add("second", Value::Bool(true))?;
    message.add("n", Value::Int(5))?;
    let bytes = flatten(rt.alloc(), &message)?;
    let due = b"GNIP\x02BOOL\x06second\x01\x01LONG\x01n\x01\x05\0\0\0";
    same!(rt; bytes.as_slice(), due.as_slice());
    Ok(())
}
