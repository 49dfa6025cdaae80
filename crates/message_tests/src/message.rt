use be_geom::{NoMemory, Point, Rect};
use be_message::{AddFault, FindFault, Kind, Message, NameNotFound, ReplaceFault, Text, Value};
use std::alloc::Global;
use std::test::Fail;

const PING: u32 = 0x5049_4e47;

/// What a call answered, without the value that came back.
#[derive(Clone, Copy, Debug, PartialEq, Eq)]
enum Answer {
    Done,
    BadName,
    BadValue,
    BadType,
    TooMany,
    NameNotFound,
    BadIndex,
    NoMemory,
}

fn answer_to_add(message: &mut Message, name: &str, value: Value) -> Answer {
    match message.add(name, value) {
        Ok(()) => Answer::Done,
        Err(fault) => refusal_of(&fault),
    }
}

fn refusal_of(fault: &AddFault) -> Answer {
    match fault {
        AddFault::BadName(_) => Answer::BadName,
        AddFault::BadValue(_) => Answer::BadValue,
        AddFault::BadType(_) => Answer::BadType,
        AddFault::TooMany(_) => Answer::TooMany,
        AddFault::NoMemory(_) => Answer::NoMemory,
    }
}

fn answer_to_replace(message: &mut Message, name: &str, index: usize, value: Value) -> Answer {
    match message.replace(name, index, value) {
        Ok(_) => Answer::Done,
        Err(fault) => fault_of(&fault),
    }
}

fn fault_of(fault: &ReplaceFault) -> Answer {
    match fault {
        ReplaceFault::NameNotFound(_) => Answer::NameNotFound,
        ReplaceFault::BadType(_) => Answer::BadType,
        ReplaceFault::BadIndex(_) => Answer::BadIndex,
        ReplaceFault::BadValue(_) => Answer::BadValue,
    }
}

fn text(alloc: Global, bytes: &[u8]) -> Result<Value, NoMemory> {
    Ok(Value::Text(Text::new(alloc, bytes)?))
}

/// The number, or -1 where it is another value.
fn number_in(value: &Value) -> i32 {
    match value {
        Value::Int(number) => *number,
        _ => -1,
    }
}

fn number_at(message: &Message, name: &str, index: usize) -> Result<i32, FindFault> {
    Ok(number_in(message.find(name, Kind::Int, index)?))
}

/// A message with as many messages within one another, itself counted.
fn nested(alloc: Global, depth: u8) -> Result<Message, Fail> {
    let mut message = Message::new(alloc, PING);
    for _ in 1..depth {
        let mut outer = Message::new(alloc, PING);
        outer.add("m", Value::Message(Box::new(alloc, message)?))?;
        message = outer;
    }
    Ok(message)
}

const FINDS: [(&str, Kind, usize, Result<i32, FindFault>); 6] = [
    ("n", Kind::Int, 0, Ok(5)),
    ("x", Kind::Int, 0, Err(FindFault::NameNotFound)),
    ("n", Kind::Text, 0, Err(FindFault::BadType)),
    ("n", Kind::Int, 1, Err(FindFault::BadIndex)),
    ("x", Kind::Text, 1, Err(FindFault::NameNotFound)),
    ("n", Kind::Text, 1, Err(FindFault::BadType)),
];

#[test]
fn a_value_is_found_by_name_type_and_number(rt: HostRuntime) -> Result<(), Fail> {
    let mut ping = Message::new(rt.alloc(), PING);
    ping.add("n", Value::Int(5))?;
    same!(rt; ping.what(), PING);
    for (name, kind, index, want) in &FINDS {
        let found = ping.find(name, *kind, *index).map(number_in);
        same!(rt; found, *want, (*name, *index));
    }
    let words = text(rt.alloc(), b"words")?;
    same!(rt; answer_to_add(&mut ping, "n", words), Answer::BadType);
    same!(rt; ping.count("n"), 1);
    Ok(())
}

#[test]
fn the_first_reason_against_adding_counts(rt: HostRuntime) -> Result<(), Fail> {
    let alloc = rt.alloc();
    let mut message = Message::new(alloc, PING);
    for _ in 0..255 {
        message.add("full", Value::Int(7))?;
    }
    for number in 1..255 {
        let name = format!(in alloc; "f{number}")?;
        message.add(&name, Value::Int(number))?;
    }
    same!(rt; message.field_count(), 255);
    same!(rt; message.count("full"), 255);
    let long = [b'a'; 1025];
    for (name, value, want) in [
        ("", text(alloc, b"\x1f")?, Answer::BadName),
        ("full!", text(alloc, b"\x1f")?, Answer::BadName),
        ("full", text(alloc, &long)?, Answer::BadValue),
        ("new", text(alloc, b"\x1f")?, Answer::BadValue),
        ("full", Value::Bool(true), Answer::BadType),
        ("full", Value::Int(8), Answer::TooMany),
        ("new", Value::Int(8), Answer::TooMany),
        ("f1", Value::Int(8), Answer::Done),
    ] {
        let answer = answer_to_add(&mut message, name, value);
        same!(rt; answer, want, name);
    }
    same!(rt; message.field_count(), 255);
    same!(rt; message.count("full"), 255);
    same!(rt; number_at(&message, "f1", 1), Ok(8));
    Ok(())
}

const NAMES: [(&str, Answer); 14] = [
    ("", Answer::BadName),
    ("a", Answer::Done),
    ("z9_", Answer::Done),
    ("abcdefghijklmnopqrstuvwxyz012345", Answer::Done),
    ("abcdefghijklmnopqrstuvwxyz0123456", Answer::BadName),
    ("0a", Answer::BadName),
    ("_a", Answer::BadName),
    ("A", Answer::BadName),
    ("aB", Answer::BadName),
    ("a b", Answer::BadName),
    ("a-b", Answer::BadName),
    ("a`", Answer::BadName),
    ("a{", Answer::BadName),
    ("é", Answer::BadName),
];

#[test]
fn names_begin_with_a_letter_and_have_32_characters_at_most(rt: HostRuntime) {
    for (name, want) in &NAMES {
        let mut message = Message::new(rt.alloc(), PING);
        let answer = answer_to_add(&mut message, name, Value::Bool(true));
        same!(rt; answer, *want, *name);
    }
}

#[test]
fn texts_have_1024_bytes_from_32_to_126_at_most(rt: HostRuntime) -> Result<(), Fail> {
    let long = [b'a'; 1025];
    for (bytes, want) in [
        (b"".as_slice(), Answer::Done),
        (&long[1..], Answer::Done),
        (&long, Answer::BadValue),
        (b"a\x1f", Answer::BadValue),
        (b"a\x20", Answer::Done),
        (b"a\x7e", Answer::Done),
        (b"a\x7f", Answer::BadValue),
        (b"\x80a", Answer::BadValue),
    ] {
        let mut message = Message::new(rt.alloc(), PING);
        let value = text(rt.alloc(), bytes)?;
        let answer = answer_to_add(&mut message, "t", value);
        same!(rt; answer, want, bytes.len());
    }
    Ok(())
}

#[test]
fn messages_lie_16_deep_at_most(rt: HostRuntime) -> Result<(), Fail> {
    let alloc = rt.alloc();
    let mut outer = nested(alloc, 15)?;
    let inner = Value::Message(Box::new(alloc, nested(alloc, 15)?)?);
    same!(rt; answer_to_add(&mut outer, "m", inner), Answer::Done);
    let inner = Value::Message(Box::new(alloc, nested(alloc, 16)?)?);
    same!(rt; answer_to_add(&mut outer, "m", inner), Answer::BadValue);
    let inner = Value::Message(Box::new(alloc, nested(alloc, 16)?)?);
    same!(rt; answer_to_replace(&mut outer, "m", 0, inner), Answer::BadValue);
    let mut last = Message::new(alloc, PING);
    let copy = Value::Message(Box::new(alloc, outer.copy()?)?);
    same!(rt; answer_to_add(&mut last, "m", copy), Answer::BadValue);
    for index in 0..2 {
        let flat = Value::Message(Box::new(alloc, nested(alloc, 1)?)?);
        same!(rt; answer_to_replace(&mut outer, "m", index, flat), Answer::Done);
    }
    let copy = Value::Message(Box::new(alloc, outer.copy()?)?);
    same!(rt; answer_to_add(&mut last, "m", copy), Answer::Done);
    let mut deepest = nested(alloc, 16)?;
    assert!(rt; deepest.remove("m").is_ok());
    let freed = Value::Message(Box::new(alloc, deepest)?);
    same!(rt; answer_to_add(&mut last, "m", freed), Answer::Done);
    same!(rt; last.count("m"), 2);
    Ok(())
}

#[test]
fn the_first_reason_against_replacing_counts(rt: HostRuntime) -> Result<(), Fail> {
    let alloc = rt.alloc();
    let mut message = Message::new(alloc, PING);
    for number in 0..3 {
        message.add("n", Value::Int(number))?;
    }
    message.add("t", text(alloc, b"words")?)?;
    for (name, index, value, want) in [
        ("x", 9, text(alloc, b"\x7f")?, Answer::NameNotFound),
        ("n", 9, text(alloc, b"\x7f")?, Answer::BadType),
        ("t", 1, text(alloc, b"\x7f")?, Answer::BadIndex),
        ("t", 0, text(alloc, b"\x7f")?, Answer::BadValue),
        ("t", 0, text(alloc, b"")?, Answer::Done),
        ("n", 3, Value::Int(9), Answer::BadIndex),
    ] {
        let answer = answer_to_replace(&mut message, name, index, value);
        same!(rt; answer, want, (name, index));
    }
    let old = message.replace("n", 1, Value::Int(7))?;
    same!(rt; number_in(&old), 1);
    for (index, want) in [(0, 0), (1, 7), (2, 2)] {
        same!(rt; number_at(&message, "n", index), Ok(want));
    }
    Ok(())
}

#[test]
fn fields_stand_in_order_of_first_adding(rt: HostRuntime) -> Result<(), Fail> {
    let alloc = rt.alloc();
    let mut message = Message::new(alloc, PING);
    let origin = Point { x: 0, y: 0 };
    let empty = Rect {
        left: 1,
        top: 0,
        right: 0,
        bottom: 0,
    };
    message.add("a", Value::Int(1))?;
    message.add("b", Value::Point(origin))?;
    message.add("c", Value::Rect(empty))?;
    message.add("a", Value::Int(2))?;
    let before = message.copy()?;
    same!(rt; message.remove("x"), Err(NameNotFound));
    same!(rt; message.remove("b"), Ok(()));
    message.add("b", Value::Bool(false))?;
    let names = [Some("a"), Some("c"), Some("b"), None];
    for (place, want) in names.iter().enumerate() {
        same!(rt; message.name_at(place), *want, place);
    }
    for (name, count, count_before) in [("a", 2, 2), ("b", 1, 1), ("c", 1, 1), ("x", 0, 0)] {
        same!(rt; message.count(name), count, name);
        same!(rt; before.count(name), count_before, name);
    }
    for (field, kind) in before
        .fields()
        .iter()
        .zip([Kind::Int, Kind::Point, Kind::Rect])
    {
        same!(rt; field.kind(), kind);
        for value in field.values() {
            same!(rt; value.kind(), kind);
        }
    }
    same!(rt; before.name_at(1), Some("b"));
    same!(rt; before.what(), PING);
    same!(rt; number_at(&before, "a", 1), Ok(2));
    Ok(())
}

/// Copies a field where its name is new and there is room.
fn copy_new(to: &mut Message, from: &Message, name: &str) -> Result<(), Fail> {
    if !to.has(name) && to.field_count() < 255 {
        to.copy_field(from, name)?;
    }
    Ok(())
}

#[test]
fn a_field_is_copied_with_all_its_values_and_their_depth(rt: HostRuntime) -> Result<(), Fail> {
    let alloc = rt.alloc();
    let mut from = nested(alloc, 16)?;
    from.add("n", Value::Int(5))?;
    from.add("n", Value::Int(6))?;
    let mut to = Message::new(alloc, PING);
    to.add("a", Value::Bool(true))?;
    copy_new(&mut to, &from, "n")?;
    copy_new(&mut to, &from, "x")?;
    let flat = Value::Message(Box::new(alloc, to.copy()?)?);
    copy_new(&mut to, &from, "m")?;
    let names = [Some("a"), Some("n"), Some("m"), None];
    for (place, want) in names.iter().enumerate() {
        same!(rt; to.name_at(place), *want, place);
    }
    same!(rt; number_at(&to, "n", 0), Ok(5));
    same!(rt; number_at(&to, "n", 1), Ok(6));
    same!(rt; to.count("n"), 2);
    let deepest = Value::Message(Box::new(alloc, to)?);
    same!(rt; answer_to_add(&mut from, "to", deepest), Answer::BadValue);
    same!(rt; answer_to_add(&mut from, "to", flat), Answer::Done);
    Ok(())
}
