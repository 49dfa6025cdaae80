use be_message::Message;
use be_reply::{Cell, PutFault};
use std::alloc::Global;
use std::process::Abort;

/// The characters of `YES_`, a reply, and of `NORE` and `NOTU`, which stand for one.
const YES: u32 = 0x5945_535f;

const NORE: u32 = 0x4e4f_5245;

const NOTU: u32 = 0x4e4f_5455;

/// Puts a reply, and gives the word of the message that was handed back.
fn refused(rt: &impl Alloc<A = Global>, cell: &mut Cell, what: u32) -> Option<u32> {
    match cell.put(Message::new(rt.alloc(), what)) {
        Ok(()) => None,
        Err(PutFault::NotWaiting(back)) => Some(back.what()),
    }
}

fn peeked(cell: &Cell) -> Option<u32> {
    cell.peek().map(|message| message.what())
}

fn claimed(cell: &mut Cell) -> Option<u32> {
    cell.claim().map(|message| message.what())
}

/// Whether the cell waits, and the words of what it shows and of what it gives.
fn told(cell: &mut Cell) -> (bool, Option<u32>, Option<u32>) {
    (cell.waiting(), peeked(cell), claimed(cell))
}

/// Asserts that a cell takes one reply, once it waits.
fn assert_replied(rt: &(impl Abort + Alloc<A = Global>), cell: &mut Cell, what: u32) {
    assert!(rt; !cell.waiting());
    cell.wait();
    same!(rt; told(cell), (true, None, None));
    same!(rt; cell.waiting(), true);
    same!(rt; (refused(rt, cell, what), cell.waiting()), (None, true));
    same!(rt; refused(rt, cell, NORE), Some(NORE));
    same!(rt; (peeked(cell), claimed(cell)), (Some(what), Some(what)));
    same!(rt; told(cell), (false, None, None));
    same!(rt; refused(rt, cell, what), Some(what));
}

#[test]
fn one_reply_for_each_wait(rt: HostRuntime) {
    let mut cell = Cell::new();
    same!(rt; told(&mut cell), (false, None, None));
    same!(rt; refused(&rt, &mut cell, YES), Some(YES));
    same!(rt; peeked(&cell), None);
    for what in [YES, NORE, NOTU] {
        assert_replied(&rt, &mut cell, what);
    }
}
