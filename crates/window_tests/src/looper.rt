use be_command::Command;
use be_flat::Bytes;
use be_handler::Route;
use be_looper::{BeginFault, Looper, Owner, ReplyFault};
use be_message::{Message, Target};
use be_port::{Duty, Letter, Sender};
use std::alloc::Global;
use std::test::Fail;

/// The characters of `PING`.
const PING: u32 = 0x5049_4e47;

/// What is asked of a looper, and what is due.
#[derive(Clone, Copy)]
enum Step {
    /// An application locks it, or is told who owns it.
    Lock(u16, Option<Owner>),
    /// Whether an application unlocks it.
    Unlock(u16, bool),
    /// A letter with this duty is begun, or all is handed back with the owner.
    Begin(Duty, Option<Owner>),
    Reply(Result<u16, ReplyFault>),
    Detach(Option<Duty>),
    End(Option<Duty>),
    Owner(Owner),
    /// Whether the letter, the message and the route are in hand, and the duty that is left.
    Hand(Option<Duty>),
}

fn letter(rt: &impl Alloc<A = Global>, duty: Duty) -> Letter {
    Letter {
        number: 9,
        sender: Sender::App(5),
        target: Target::View(2),
        hop: 1,
        duty,
        notice: false,
        bytes: Bytes::from_vec(Vec::new(rt.alloc())),
    }
}

fn begin(rt: &impl Alloc<A = Global>, looper: &mut Looper, duty: Duty) -> Option<(Owner, bool)> {
    let route = Route::Handler(Target::Plain(1));
    let fault = looper
        .begin(letter(rt, duty), Message::new(rt.alloc(), PING), route)
        .err()?;
    let BeginFault::Held {
        owner,
        letter,
        message,
        route: back,
    } = fault;
    Some((
        owner,
        letter.number == 9 && letter.duty == duty && message.what() == PING && back == route,
    ))
}

/// The duty that is left of the letter in hand; the route, the message and the rest of the letter
/// are as they were begun.
fn in_hand(looper: &Looper) -> Option<Duty> {
    let letter = looper.letter()?;
    let whole = letter.number == 9
        && looper.message()?.what() == PING
        && looper.route()? == Route::Handler(Target::Plain(1));
    whole.then_some(letter.duty)
}

fn holds(rt: &impl Alloc<A = Global>, looper: &mut Looper, step: Step) -> bool {
    match step {
        Step::Lock(app, due) => looper.lock(app).err().map(|held| held.owner) == due,
        Step::Unlock(app, due) => looper.unlock(app).is_ok() == due,
        Step::Begin(duty, due) => begin(rt, looper, duty) == due.map(|owner| (owner, true)),
        Step::Reply(due) => looper.reply() == due,
        Step::Detach(due) => looper.detach().ok() == due,
        Step::End(due) => looper.end().ok() == due,
        Step::Owner(due) => looper.owner() == due,
        Step::Hand(due) => in_hand(looper) == due,
    }
}

const LOCKS: [Step; 16] = [
    Step::Owner(Owner::Free),
    Step::Hand(None),
    Step::Unlock(3, false),
    Step::Lock(3, None),
    Step::Owner(Owner::App(3)),
    Step::Lock(3, Some(Owner::App(3))),
    Step::Lock(4, Some(Owner::App(3))),
    Step::Begin(Duty::Free, Some(Owner::App(3))),
    Step::Reply(Err(ReplyFault::NoMessage)),
    Step::Detach(None),
    Step::End(None),
    Step::Hand(None),
    Step::Unlock(4, false),
    Step::Owner(Owner::App(3)),
    Step::Unlock(3, true),
    Step::Owner(Owner::Free),
];

const OWED: [Step; 13] = [
    Step::Begin(Duty::Owed(5), None),
    Step::Owner(Owner::Own),
    Step::Hand(Some(Duty::Owed(5))),
    Step::Begin(Duty::Free, Some(Owner::Own)),
    Step::Lock(1, Some(Owner::Own)),
    Step::Unlock(1, false),
    Step::Reply(Ok(5)),
    Step::Hand(Some(Duty::Done)),
    Step::Reply(Err(ReplyFault::DuplicateReply)),
    Step::Detach(Some(Duty::Free)),
    Step::Reply(Err(ReplyFault::DuplicateReply)),
    Step::End(Some(Duty::Done)),
    Step::Owner(Owner::Free),
];

const HANDED_ON: [Step; 13] = [
    Step::Begin(Duty::Owed(65_535), None),
    Step::Detach(Some(Duty::Owed(65_535))),
    Step::Hand(Some(Duty::Free)),
    Step::Detach(Some(Duty::Free)),
    Step::Reply(Err(ReplyFault::NoReplyWanted)),
    Step::End(Some(Duty::Free)),
    Step::Hand(None),
    Step::Begin(Duty::Free, None),
    Step::Reply(Err(ReplyFault::NoReplyWanted)),
    Step::End(Some(Duty::Free)),
    Step::Begin(Duty::Owed(0), None),
    Step::End(Some(Duty::Owed(0))),
    Step::End(None),
];

fn all_hold(rt: &impl Alloc<A = Global>, looper: &mut Looper, steps: &[Step]) -> bool {
    steps.iter().all(|step| holds(rt, looper, *step))
}

#[test]
fn owners_and_duties_change_as_they_should(rt: HostRuntime) -> Result<(), Fail> {
    let mut looper = Looper::new(rt.alloc())?;
    assert!(rt; all_hold(&rt, &mut looper, LOCKS.as_slice()));
    assert!(rt; all_hold(&rt, &mut looper, OWED.as_slice()));
    assert!(rt; all_hold(&rt, &mut looper, HANDED_ON.as_slice()));
    Ok(())
}

#[test]
fn commands_wait_while_owners_change(rt: HostRuntime) -> Result<(), Fail> {
    let mut looper = Looper::new(rt.alloc())?;
    assert!(rt; looper.lock(0).is_ok());
    assert_eq!(rt; looper.buffer().put(Command::Push(0)).ok(), Some(1));
    assert!(rt; looper.unlock(0).is_ok());
    assert_eq!(rt; looper.commands().len(), 1);
    assert_eq!(rt; looper.commands().next_number(), 2);
    Ok(())
}
