use be_actor::Place;
use be_command::Command;
use be_looper::Owner;
use be_machine::{Act, Entry};
use be_message::Message;
use be_parts::{CellPart, InputPart, LinkPart, LooperPart, Part};
use std::alloc::Global;
use std::process::Abort;
use std::test::Fail;

/// The characters of `PING`.
const PING: u32 = 0x5049_4e47;

#[test]
fn an_application_goes_to_another_instruction(rt: HostRuntime) {
    let mut cell = CellPart::new(rt.alloc(), 3);
    same!(rt; cell.place(), Place { step: 0, part: 0 });
    cell.go_to(Place { step: 4, part: 1 });
    same!(rt; cell.place(), Place { step: 4, part: 1 });
}

/// Asserts that an application that waits gets a reply and takes it.
fn assert_replied(rt: &impl Abort, alloc: Global, cell: &mut CellPart) {
    same!(rt; cell.cell().waiting(), true);
    cell.tell(Message::new(alloc, PING));
    let reply = cell.claim().expect(rt, "a reply");
    same!(rt; reply.what(), PING);
    same!(rt; cell.cell().waiting(), false);
}

#[test]
fn an_application_waits_and_takes_its_reply(rt: HostRuntime) {
    let mut cell = CellPart::new(rt.alloc(), 3);
    cell.tell(Message::new(rt.alloc(), PING));
    same!(rt; cell.claim().is_none(), true);
    cell.wait();
    assert_replied(&rt, rt.alloc(), &mut cell);
}

#[test]
fn an_application_locks_a_looper_and_lets_go(rt: HostRuntime) -> Result<(), Fail> {
    let mut looper = LooperPart::new(rt.alloc(), 0)?;
    looper.lock(2);
    same!(rt; looper.owner(), Owner::App(2));
    looper.unlock(2);
    same!(rt; looper.owner(), Owner::Free);
    Ok(())
}

/// Whether a command and its number are these.
fn is_numbered(found: &Option<(u64, Command)>, number: u64, is_push: bool) -> bool {
    match found {
        Some((place, Command::Push(1))) => *place == number && is_push,
        Some((place, Command::Pop(1))) => *place == number && !is_push,
        _ => false,
    }
}

/// Asserts that a link has a push and a pop on view 1, with the numbers 1 and 2, and no more.
fn assert_push_and_pop(rt: &impl Abort, link: &mut LinkPart) {
    same!(rt; is_numbered(&link.pop(), 1, true), true);
    same!(rt; is_numbered(&link.pop(), 2, false), true);
    same!(rt; link.pop().is_none(), true);
}

#[test]
fn commands_go_from_the_buffer_to_the_link(rt: HostRuntime) -> Result<(), Fail> {
    let mut looper = LooperPart::new(rt.alloc(), 0)?;
    let mut link = LinkPart::new(rt.alloc(), 0)?;
    looper.put(Command::Push(1));
    looper.put(Command::Pop(1));
    let (number, command) = looper.pop().expect(&rt, "a push");
    link.push(number, command);
    let (number, command) = looper.pop().expect(&rt, "a pop");
    link.push(number, command);
    same!(rt; looper.pop().is_none(), true);
    same!(rt; looper.buffer().len(), 0);
    assert_push_and_pop(&rt, &mut link);
    Ok(())
}

fn used(number: u64) -> Entry {
    Entry {
        actor: 5,
        act: Act::Event(number, None, None),
    }
}

#[test]
fn a_part_keeps_its_activity_s_entries_in_order(rt: HostRuntime) -> Result<(), Fail> {
    let mut part = Part::Input(InputPart::new(rt.alloc()));
    part.make_room()?;
    part.enter(4, used(4), None);
    part.make_room()?;
    part.enter(9, used(9), None);
    for number in [4, 9] {
        let (at, entry) = part.unlog().expect(&rt, "an entry");
        same!(rt; at, number);
        let is_used = matches!(entry.act, Act::Event(used, None, None) if used == number);
        same!(rt; is_used, true, number);
    }
    same!(rt; part.unlog().is_none(), true);
    Ok(())
}
