ghost use Rattle.std.specs.Prelude.{◌≡◌, ◌≤◌, IfOk};
ghost use Rattle.be_message.specs.Depths.{depth_of};

use crate::rules::{are_kept, is_alone, is_place};
use be_actor::{Draft, FieldWord, Instruction, Place, Program, next};
use be_command::Command;
use be_geom::{NoMemory, Point, Rect};
use be_message::{Message, Target, Text, Value};
use std::alloc::Global;
use std::process::Abort;
use std::test::Fail;

const PING: u32 = 80;

fn letter(alloc: Global, letter: u8) -> Result<Text, NoMemory> {
    Text::new(alloc, &[letter])
}

fn value(alloc: Global, name: u8, value: Value) -> Result<FieldWord, NoMemory> {
    Ok(FieldWord::Value(letter(alloc, name)?, value))
}

/// A post of such words.
fn post(words: Vec<FieldWord>) -> Instruction {
    Instruction::Post(0, Target::Window, Draft { what: PING, words })
}

/// What a program asks for at a place, told as `{:?}` tells it, where there is no current message.
fn told(
    rt: &impl Abort,
    alloc: Global,
    program: &Program,
    place: Place,
    buffered: u32,
) -> Result<String, Fail> {
    assert!(rt; is_place(program, place));
    assert!(rt; are_kept(&program.steps));
    assert!(rt; is_alone(program, place));
    let wish = next(alloc, program, place, None, buffered)?;
    Ok(format!(in alloc; "{wish:?}")?)
}

/// The same of a program of one instruction, beside a current message.
fn told_beside(
    rt: &impl Abort,
    alloc: Global,
    at: Instruction,
    message: &Message,
) -> Result<String, Fail>
    requires { depth_of message.now ≤ 15 }
{
    let program = Program {
        steps: vec![in alloc; at]?,
    };
    let place = Place { step: 0, part: 0 };
    assert!(rt; is_place(&program, place));
    assert!(rt; are_kept(&program.steps));
    let wish = next(alloc, &program, place, Some(message), 0)?;
    Ok(format!(in alloc; "{wish:?}")?)
}

/// Each instruction once.
fn each_instruction(alloc: Global) -> Result<Program, NoMemory> {
    let mut steps = Vec::new(alloc);
    steps.push(Instruction::Note(letter(alloc, b'x')?))?;
    steps.push(post(Vec::new(alloc)))?;
    let words = vec![in alloc; value(alloc, b'a', Value::Int(5))?]?;
    let draft = Draft { what: 7, words };
    steps.push(Instruction::Send(1, Target::View(2), draft))?;
    let draft = Draft {
        what: 9,
        words: Vec::new(alloc),
    };
    steps.push(Instruction::Reply(draft))?;
    steps.push(Instruction::Forward(3, Target::Plain(4)))?;
    steps.push(Instruction::Lock(6))?;
    steps.push(Instruction::Unlock)?;
    steps.push(Instruction::Flush)?;
    steps.push(Instruction::Sync)?;
    steps.push(Instruction::Draw(Command::Push(8)))?;
    Ok(Program { steps })
}

#[test]
fn each_instruction_is_asked_for_after_the_flush_that_is_due(rt: HostRuntime) -> Result<(), Fail> {
    let alloc = rt.alloc();
    let program = each_instruction(alloc)?;
    for (step, part, buffered, want) in [
        (0, 0, 0, "Some(Note(Text { bytes: [120] }))"),
        (
            1,
            0,
            32,
            "Some(Post(0, Window, Message { what: 80, depth: 1, fields: [] }))",
        ),
        (
            2,
            0,
            0,
            "Some(Send(1, View(2), Message { what: 7, depth: 1, fields: \
             [Field { name: \"a\", kind: Int, values: [Int(5)] }] }))",
        ),
        (2, 1, 0, "Some(Claim)"),
        (
            3,
            0,
            1,
            "Some(Reply(Message { what: 9, depth: 1, fields: [] }))",
        ),
        (4, 0, 31, "Some(Forward(3, Plain(4)))"),
        (5, 0, 0, "Some(Lock(6))"),
        (6, 0, 0, "Some(Unlock)"),
        (6, 0, 1, "Some(Flush)"),
        (6, 0, 31, "Some(Flush)"),
        (6, 0, 32, "Some(Flush)"),
        (7, 0, 0, "Some(Flush)"),
        (7, 0, 32, "Some(Flush)"),
        (8, 0, 0, "Some(Flush)"),
        (8, 0, 32, "Some(Flush)"),
        (8, 1, 0, "Some(SyncDone)"),
        (9, 0, 0, "Some(Draw(Push(8)))"),
        (9, 0, 1, "Some(Draw(Push(8)))"),
        (9, 0, 31, "Some(Draw(Push(8)))"),
        (9, 0, 32, "Some(Flush)"),
        (10, 0, 0, "None"),
        (10, 0, 32, "None"),
    ] {
        let asked = told(&rt, alloc, &program, Place { step, part }, buffered)?;
        assert_eq!(rt; asked.as_str(), want, "{step} {part} {buffered}");
    }
    Ok(())
}

/// A current message with two values under one name.
fn current(alloc: Global) -> Result<Message, Fail>
    ensures { IfOk result (λ message. depth_of message ≤ 15) }
{
    let mut message = Message::new(alloc, 3);
    message.add("n", Value::Int(5))?;
    message.add("n", Value::Int(6))?;
    Ok(message)
}

/// A value of each type, two under one name.
fn each_type(alloc: Global) -> Result<Vec<FieldWord>, NoMemory> {
    let corner = Point { x: -1, y: 2 };
    let empty = Rect {
        left: 1,
        top: 0,
        right: 0,
        bottom: 3,
    };
    let mut words = Vec::new(alloc);
    words.push(value(alloc, b'b', Value::Bool(true))?)?;
    words.push(value(alloc, b'i', Value::Int(-5))?)?;
    words.push(value(alloc, b's', Value::Text(letter(alloc, b't')?))?)?;
    words.push(value(alloc, b'p', Value::Point(corner))?)?;
    words.push(value(alloc, b'r', Value::Rect(empty))?)?;
    words.push(value(alloc, b'i', Value::Int(7))?)?;
    Ok(words)
}

#[test]
fn a_draft_is_filled_beside_the_current_message(rt: HostRuntime) -> Result<(), Fail> {
    let alloc = rt.alloc();
    let message = current(alloc)?;
    let beside = value(alloc, b'a', Value::Int(1))?;
    let held = vec![in alloc; FieldWord::Current(letter(alloc, b'm')?), beside]?;
    let beside = value(alloc, b'a', Value::Int(1))?;
    let there = FieldWord::Copied(letter(alloc, b'n')?);
    let missing = FieldWord::Copied(letter(alloc, b'x')?);
    let copied = vec![in alloc; beside, missing, there]?;
    for (words, fields) in [
        (
            each_type(alloc)?,
            "1, fields: [Field { name: \"b\", kind: Bool, values: [Bool(true)] }, \
             Field { name: \"i\", kind: Int, values: [Int(-5), Int(7)] }, \
             Field { name: \"s\", kind: Text, values: [Text(Text { bytes: [116] })] }, \
             Field { name: \"p\", kind: Point, values: [Point(Point { x: -1, y: 2 })] }, \
             Field { name: \"r\", kind: Rect, values: \
             [Rect(Rect { left: 1, top: 0, right: 0, bottom: 3 })] }]",
        ),
        (
            held,
            "2, fields: [Field { name: \"m\", kind: Message, values: \
             [Message(Message { what: 3, depth: 1, fields: \
             [Field { name: \"n\", kind: Int, values: [Int(5), Int(6)] }] })] }, \
             Field { name: \"a\", kind: Int, values: [Int(1)] }]",
        ),
        (
            copied,
            "1, fields: [Field { name: \"a\", kind: Int, values: [Int(1)] }, \
             Field { name: \"n\", kind: Int, values: [Int(5), Int(6)] }]",
        ),
    ] {
        let asked = told_beside(&rt, alloc, post(words), &message)?;
        let want = format!(in alloc;
            "Some(Post(0, Window, Message {{ what: 80, depth: {fields} }}))"
        )?;
        assert_eq!(rt; asked.as_str(), want.as_str());
    }
    Ok(())
}
