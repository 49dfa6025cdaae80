ghost use Rattle.std.specs.Prelude.{◌≡◌};
ghost use Rattle.std.specs.Option.{ok_or};
ghost use Rattle.std.specs.Str.{bytes_eq};
ghost use Rattle.std.specs.Fmt.{decimal};
ghost use Rattle.be_report.specs.Entries.{window, count, share, posted, delivery, kind_of, act_of};
ghost use Rattle.be_report.specs.Entries.{act_read, maker, numbered};
ghost use Rattle.be_report.specs.Outcomes.{ReadsOr};
ghost use Rattle.be_written.specs.Runners.{AreFew};
ghost use Rattle.be_report.specs.Readers.{Reads, next_word, optional};
ghost use Rattle.be_script.specs.Script.{Declared, declared_by};

// What the next words of a line say. None stands for words of another form; what is left of them is
// then open.

use crate::kind::Kind;
use crate::naming::{actor_named, window_named};
use crate::spaced::Spaced;
use crate::word::{
    answered_of, count_of, end_of, is_note, opened_of, outcome_of, replied_of, share_of,
};
use be_command::Reason;
use be_machine::{Act, Entry};
use be_message::Text;
use be_port::Posted;
use be_said::LineFault;
use be_script::Script;
use itoa::Buffer;
use std::alloc::Global;

/// An entry with its number.
#[tactic(auto, unfolding(crate::specs::Entries::numbered))]
pub(crate) fn numbered(
    alloc: Global,
    script: &Script,
    number: u64,
    words: &mut Spaced<'_>,
) -> Result<Entry, LineFault>
    requires { AreFew (declared_by script.now) }
    ensures { ReadsOr (numbered (declared_by script.now) number) words.old result words.new }
{
    let Some(actor) = maker(script, number, words) else {
        return Err(LineFault::Bad(Reason::BadEntry));
    };
    let act = act(alloc, script, words)?;
    Ok(Entry { actor, act })
}

/// An entry's number, and who made it.
#[tactic(auto, unfolding(crate::specs::Entries::maker))]
fn maker(script: &Script, number: u64, words: &mut Spaced<'_>) -> Option<u32>
    requires { AreFew (declared_by script.now) }
    ensures { Reads (maker (declared_by script.now) number) words.old result words.new }
{
    let word = words.next()?;
    if !is_number(word, number) {
        return None;
    }
    let word = words.next()?;
    actor_named(script, word)
}

/// Whether the word is this number's digits.
fn is_number(word: &[u8], number: u64) -> bool
    ensures { result ≡ bytes_eq word.now (decimal number) }
{
    word == Buffer::new().format(number).as_bytes()
}

/// What was done.
#[tactic(auto, unfolding(crate::specs::Entries::act_read))]
fn act(alloc: Global, script: &Script, words: &mut Spaced<'_>) -> Result<Act, LineFault>
    requires { AreFew (declared_by script.now) }
    ensures { ReadsOr (act_read (declared_by script.now)) words.old result words.new }
{
    let Some(kind) = kind(words) else {
        return Err(LineFault::Bad(Reason::BadEntry));
    };
    act_of(alloc, script, kind, words)
}

fn kind(words: &mut Spaced<'_>) -> Option<Kind>
    ensures { Reads (next_word kind_of) words.old result words.new }
{
    let word = words.next()?;
    Kind::of(word)
}

fn act_of(
    alloc: Global,
    script: &Script,
    kind: Kind,
    words: &mut Spaced<'_>,
) -> Result<Act, LineFault>
    requires { AreFew (declared_by script.now) }
    ensures { ReadsOr (act_of (declared_by script.now) kind) words.old result words.new }
{
    match kind {
        Kind::Post => or_bad_entry(post(script, words)),
        Kind::Take => or_bad_entry(take(words)),
        Kind::Note => note(alloc, words),
        Kind::Reply => or_bad_entry(reply(words)),
        Kind::Claim => or_bad_entry(claim(words)),
        Kind::Lock => or_bad_entry(lock(script, words)),
        Kind::Unlock => or_bad_entry(unlock(script, words)),
        Kind::Draw => or_bad_entry(draw(script, words)),
        Kind::Flush => or_bad_entry(flush(script, words)),
        Kind::SyncDone => or_bad_entry(sync_done(script, words)),
        Kind::Exec => or_bad_entry(exec(words)),
        Kind::Notify => or_bad_entry(notify(words)),
        Kind::Begin => or_bad_entry(begin(words)),
        Kind::Event => or_bad_entry(event(script, words)),
        Kind::End => or_bad_entry(end(words)),
        Kind::Stop => Ok(Act::Stop),
    }
}

fn or_bad_entry(act: Option<Act>) -> Result<Act, LineFault>
    ensures { result ≡ ok_or act (LineFault.Bad Reason.BadEntry) }
{
    act.ok_or(LineFault::Bad(Reason::BadEntry))
}

// ---- each kind of act

#[tactic(auto, unfolding(crate::specs::Entries::act_of))]
fn post(script: &Script, words: &mut Spaced<'_>) -> Option<Act>
    requires { AreFew (declared_by script.now) }
    ensures { Reads (act_of (declared_by script.now) Kind.Post) words.old result words.new }
{
    let window = window(script, words)?;
    let answer = posted(words)?;
    Some(Act::Post(window, answer))
}

#[tactic(auto, unfolding(crate::specs::Entries::act_of))]
fn take(words: &mut Spaced<'_>) -> Option<Act>
    ensures { (d : Declared) → Reads (act_of d Kind.Take) words.old result words.new }
{
    Some(Act::Take(count(words)?))
}

#[tactic(auto, unfolding(crate::specs::Entries::act_of))]
fn note(alloc: Global, words: &mut Spaced<'_>) -> Result<Act, LineFault>
    ensures { (d : Declared) → ReadsOr (act_of d Kind.Note) words.old result words.new }
{
    let Some(word) = words.next() else {
        return Err(LineFault::Bad(Reason::BadEntry));
    };
    if !is_note(word) {
        return Err(LineFault::Bad(Reason::BadEntry));
    }
    let text = Text::new(alloc, word)?;
    Ok(Act::Note(text))
}

#[tactic(auto, unfolding(crate::specs::Entries::act_of))]
fn reply(words: &mut Spaced<'_>) -> Option<Act>
    ensures { (d : Declared) → Reads (act_of d Kind.Reply) words.old result words.new }
{
    let word = words.next()?;
    Some(Act::Reply(replied_of(word)?))
}

#[tactic(auto, unfolding(crate::specs::Entries::act_of))]
fn claim(words: &mut Spaced<'_>) -> Option<Act>
    ensures { (d : Declared) → Reads (act_of d Kind.Claim) words.old result words.new }
{
    let word = words.next()?;
    Some(Act::Claim(answered_of(word)?))
}

#[tactic(auto, unfolding(crate::specs::Entries::act_of))]
fn lock(script: &Script, words: &mut Spaced<'_>) -> Option<Act>
    requires { AreFew (declared_by script.now) }
    ensures { Reads (act_of (declared_by script.now) Kind.Lock) words.old result words.new }
{
    Some(Act::Lock(window(script, words)?))
}

#[tactic(auto, unfolding(crate::specs::Entries::act_of))]
fn unlock(script: &Script, words: &mut Spaced<'_>) -> Option<Act>
    requires { AreFew (declared_by script.now) }
    ensures { Reads (act_of (declared_by script.now) Kind.Unlock) words.old result words.new }
{
    Some(Act::Unlock(window(script, words)?))
}

#[tactic(auto, unfolding(crate::specs::Entries::act_of))]
fn draw(script: &Script, words: &mut Spaced<'_>) -> Option<Act>
    requires { AreFew (declared_by script.now) }
    ensures { Reads (act_of (declared_by script.now) Kind.Draw) words.old result words.new }
{
    let window = window(script, words)?;
    let number = count(words)?;
    Some(Act::Draw(window, number))
}

#[tactic(auto, unfolding(crate::specs::Entries::act_of))]
fn flush(script: &Script, words: &mut Spaced<'_>) -> Option<Act>
    requires { AreFew (declared_by script.now) }
    ensures { Reads (act_of (declared_by script.now) Kind.Flush) words.old result words.new }
{
    let window = window(script, words)?;
    let share = share(words)?;
    Some(Act::Flush(window, share))
}

#[tactic(auto, unfolding(crate::specs::Entries::act_of))]
fn sync_done(script: &Script, words: &mut Spaced<'_>) -> Option<Act>
    requires { AreFew (declared_by script.now) }
    ensures { Reads (act_of (declared_by script.now) Kind.SyncDone) words.old result words.new }
{
    Some(Act::SyncDone(window(script, words)?))
}

#[tactic(auto, unfolding(crate::specs::Entries::act_of))]
fn exec(words: &mut Spaced<'_>) -> Option<Act>
    ensures { (d : Declared) → Reads (act_of d Kind.Exec) words.old result words.new }
{
    let number = count(words)?;
    let word = words.next()?;
    Some(Act::Exec(number, outcome_of(word)?))
}

#[tactic(auto, unfolding(crate::specs::Entries::act_of))]
fn notify(words: &mut Spaced<'_>) -> Option<Act>
    ensures { (d : Declared) → Reads (act_of d Kind.Notify) words.old result words.new }
{
    Some(Act::Notify(count(words)?))
}

#[tactic(auto, unfolding(crate::specs::Entries::act_of))]
fn begin(words: &mut Spaced<'_>) -> Option<Act>
    ensures { (d : Declared) → Reads (act_of d Kind.Begin) words.old result words.new }
{
    let word = words.next()?;
    Some(Act::Begin(opened_of(word)?))
}

#[tactic(auto, unfolding(crate::specs::Entries::act_of))]
fn event(script: &Script, words: &mut Spaced<'_>) -> Option<Act>
    requires { AreFew (declared_by script.now) }
    ensures { Reads (act_of (declared_by script.now) Kind.Event) words.old result words.new }
{
    let number = count(words)?;
    let first = delivery_if_any(script, words)?;
    let second = delivery_if_any(script, words)?;
    Some(Act::Event(number, first, second))
}

#[tactic(auto, unfolding(crate::specs::Entries::act_of))]
fn end(words: &mut Spaced<'_>) -> Option<Act>
    ensures { (d : Declared) → Reads (act_of d Kind.End) words.old result words.new }
{
    let word = words.next()?;
    Some(Act::End(end_of(word)?))
}

// ---- parts of acts

/// A delivery, or nothing where no word is left.
fn delivery_if_any(script: &Script, words: &mut Spaced<'_>) -> Option<Option<(u16, Posted)>>
    requires { AreFew (declared_by script.now) }
    ensures { Reads (optional (delivery (declared_by script.now))) words.old result words.new }
{
    if words.is_empty() {
        return Some(None);
    }
    Some(Some(delivery(script, words)?))
}

#[tactic(auto, unfolding(crate::specs::Entries::delivery))]
fn delivery(script: &Script, words: &mut Spaced<'_>) -> Option<(u16, Posted)>
    requires { AreFew (declared_by script.now) }
    ensures { Reads (delivery (declared_by script.now)) words.old result words.new }
{
    let window = window(script, words)?;
    let answer = posted(words)?;
    Some((window, answer))
}

/// What a post was answered.
#[tactic(auto, unfolding(crate::specs::Entries::posted))]
fn posted(words: &mut Spaced<'_>) -> Option<Posted>
    ensures { Reads posted words.old result words.new }
{
    let word = words.next()?;
    if word == b"ok".as_slice() {
        Some(Posted::Accepted(count(words)?))
    } else if word == b"wouldblock".as_slice() {
        Some(Posted::WouldBlock(share(words)?))
    } else if word == b"badport".as_slice() {
        Some(Posted::BadPort)
    } else if word == b"toodeep".as_slice() {
        Some(Posted::TooDeep)
    } else {
        None
    }
}

#[tactic(auto, unfolding(crate::specs::Entries::window))]
fn window(script: &Script, words: &mut Spaced<'_>) -> Option<u16>
    requires { AreFew (declared_by script.now) }
    ensures { Reads (window (declared_by script.now)) words.old result words.new }
{
    let word = words.next()?;
    window_named(&script.windows, word)
}

#[tactic(auto, unfolding(crate::specs::Entries::count))]
fn count(words: &mut Spaced<'_>) -> Option<u64>
    ensures { Reads count words.old result words.new }
{
    let word = words.next()?;
    count_of(word)
}

#[tactic(auto, unfolding(crate::specs::Entries::share))]
fn share(words: &mut Spaced<'_>) -> Option<u32>
    ensures { Reads share words.old result words.new }
{
    let word = words.next()?;
    share_of(word)
}
