//! Whether two acts are the same.
ghost use Rattle.std.specs.Prelude.{◌≡◌, ◌↔◌, IsTrue};
ghost use Rattle.be_machine.specs.declared.Act.TheVariants as act;

use be_machine::{Act, Answered, EndAnswer, Replied};
use be_message::Text;
use be_port::Posted;
use be_twin::Outcome;

/// It looks at the word of a note, and else takes a constant number of steps.
pub(crate) fn is_same(made: &Act, other: &Act) -> bool
    ensures { IsTrue result ↔ (other.now ≡ made.now) }
{
    match made {
        Act::Post(w, answer) => is_post(other, *w, *answer),
        Act::Take(number) => is_take(other, *number),
        Act::Note(word) => is_note(other, word),
        Act::Reply(answer) => is_reply(other, *answer),
        Act::Claim(answer) => is_claim(other, *answer),
        Act::Lock(w) => is_lock(other, *w),
        Act::Unlock(w) => is_unlock(other, *w),
        Act::Draw(w, number) => is_draw(other, *w, *number),
        Act::Flush(w, count) => is_flush(other, *w, *count),
        Act::SyncDone(w) => is_sync(other, *w),
        Act::Exec(number, outcome) => is_exec(other, *number, *outcome),
        Act::Notify(number) => is_notice(other, *number),
        Act::Begin(opened) => is_begin(other, *opened),
        Act::Event(number, first, second) => is_event(other, *number, *first, *second),
        Act::End(answer) => is_end(other, *answer),
        Act::Stop => is_stop(other),
    }
}

fn is_post(other: &Act, w: u16, answer: Posted) -> bool
    ensures { IsTrue result ↔ (other.now ≡ act.Post w answer) }
{
    match other {
        Act::Post(v, is) => *v == w && *is == answer,
        _ => false,
    }
}

fn is_take(other: &Act, number: u64) -> bool
    ensures { IsTrue result ↔ (other.now ≡ act.Take number) }
{
    match other {
        Act::Take(is) => *is == number,
        _ => false,
    }
}

fn is_note(other: &Act, word: &Text) -> bool
    ensures { IsTrue result ↔ (other.now ≡ act.Note word.now) }
{
    match other {
        Act::Note(is) => is.as_slice() == word.as_slice(),
        _ => false,
    }
}

fn is_reply(other: &Act, answer: Replied) -> bool
    ensures { IsTrue result ↔ (other.now ≡ act.Reply answer) }
{
    match other {
        Act::Reply(is) => *is == answer,
        _ => false,
    }
}

fn is_claim(other: &Act, answer: Answered) -> bool
    ensures { IsTrue result ↔ (other.now ≡ act.Claim answer) }
{
    match other {
        Act::Claim(is) => *is == answer,
        _ => false,
    }
}

fn is_lock(other: &Act, w: u16) -> bool
    ensures { IsTrue result ↔ (other.now ≡ act.Lock w) }
{
    match other {
        Act::Lock(v) => *v == w,
        _ => false,
    }
}

fn is_unlock(other: &Act, w: u16) -> bool
    ensures { IsTrue result ↔ (other.now ≡ act.Unlock w) }
{
    match other {
        Act::Unlock(v) => *v == w,
        _ => false,
    }
}

fn is_draw(other: &Act, w: u16, number: u64) -> bool
    ensures { IsTrue result ↔ (other.now ≡ act.Draw w number) }
{
    match other {
        Act::Draw(v, is) => *v == w && *is == number,
        _ => false,
    }
}

fn is_flush(other: &Act, w: u16, count: u32) -> bool
    ensures { IsTrue result ↔ (other.now ≡ act.Flush w count) }
{
    match other {
        Act::Flush(v, is) => *v == w && *is == count,
        _ => false,
    }
}

fn is_sync(other: &Act, w: u16) -> bool
    ensures { IsTrue result ↔ (other.now ≡ act.SyncDone w) }
{
    match other {
        Act::SyncDone(v) => *v == w,
        _ => false,
    }
}

fn is_exec(other: &Act, number: u64, outcome: Outcome) -> bool
    ensures { IsTrue result ↔ (other.now ≡ act.Exec number outcome) }
{
    match other {
        Act::Exec(is, came) => *is == number && *came == outcome,
        _ => false,
    }
}

fn is_notice(other: &Act, number: u64) -> bool
    ensures { IsTrue result ↔ (other.now ≡ act.Notify number) }
{
    match other {
        Act::Notify(is) => *is == number,
        _ => false,
    }
}

fn is_begin(other: &Act, opened: bool) -> bool
    ensures { IsTrue result ↔ (other.now ≡ act.Begin opened) }
{
    match other {
        Act::Begin(is) => *is == opened,
        _ => false,
    }
}

fn is_event(
    other: &Act,
    number: u64,
    first: Option<(u16, Posted)>,
    second: Option<(u16, Posted)>,
) -> bool
    ensures { IsTrue result ↔ (other.now ≡ act.Event number first second) }
{
    match other {
        Act::Event(is, one, two) => *is == number && *one == first && *two == second,
        _ => false,
    }
}

fn is_end(other: &Act, answer: EndAnswer) -> bool
    ensures { IsTrue result ↔ (other.now ≡ act.End answer) }
{
    match other {
        Act::End(is) => *is == answer,
        _ => false,
    }
}

fn is_stop(other: &Act) -> bool
    ensures { IsTrue result ↔ (other.now ≡ act.Stop) }
{
    match other {
        Act::Stop => true,
        _ => false,
    }
}
