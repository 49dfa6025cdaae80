ghost use Rattle.std.specs.Prelude.{◌≡◌, [], ◌∷◌, ◌++◌, OnOk};
ghost use Rattle.std.specs.Fmt.{decimal};
ghost use Rattle.be_written.specs.EntryText.{posted_words, delivery_words, replied_word};
ghost use Rattle.be_written.specs.EntryText.{answered_word, outcome_word, end_word, act_words};
ghost use Rattle.be_written.specs.EntryText.{entry_words, history_text};
ghost use Rattle.be_written.specs.Lines.{behind, line_of};
ghost use Rattle.be_written.specs.Names.{window_name, app_name, actor_name};
ghost use Rattle.be_script.specs.Script.{declared_by};

use crate::page::Page;
use be_geom::NoMemory;
use be_machine::{Act, Answered, EndAnswer, Entry, Replied};
use be_port::Posted;
use be_script::Script;
use be_twin::Outcome;

/// Writes the number of a history's entries, and each entry with its own number in a line.
pub fn write_history(page: &mut Page, script: &Script, history: &[Entry]) -> Result<(), NoMemory>
    ensures { OnOk result
        (page.new ≡ page.old ++ history_text (declared_by script.now) history.now) }
{
    page.text(b"history")?;
    page.number_word(history.len() as u64)?;
    page.end_line()?;
    for (place, entry) in history.iter().enumerate() {
        write_entry(page, script, place as u64 + 1, entry)?;
    }
    Ok(())
}

fn write_entry(page: &mut Page, script: &Script, number: u64, entry: &Entry) -> Result<(), NoMemory>
    ensures { OnOk result (page.new
        ≡ page.old ++ line_of (entry_words (declared_by script.now) number entry.now)) }
{
    page.number(number)?;
    write_actor(page, script, entry.actor)?;
    write_act(page, script, &entry.act)?;
    page.end_line()
}

fn write_actor(page: &mut Page, script: &Script, actor: u32) -> Result<(), NoMemory>
    ensures { OnOk result
        (page.new ≡ page.old ++ 32 ∷ actor_name (declared_by script.now) actor) }
{
    let number = actor as usize;
    let apps = script.apps.len();
    if number < apps {
        return write_named(page, b"app:", app_name(script, number));
    }
    let place = number - apps;
    let window = place / 2;
    if window < script.windows.len() {
        let name = window_name(script, window);
        return if place % 2 == 0 {
            write_named(page, b"loop:", name)
        } else {
            write_named(page, b"twin:", name)
        };
    }
    let last = place - 2 * script.windows.len();
    if last == 0 {
        page.word(b"input")
    } else if last == 1 {
        page.word(b"stop")
    } else {
        page.word(b"")
    }
}

pub(crate) fn write_named(page: &mut Page, kind: &[u8], name: &[u8]) -> Result<(), NoMemory>
    ensures { OnOk result (page.new ≡ page.old ++ 32 ∷ (kind.now ++ name.now)) }
{
    page.word(kind)?;
    page.text(name)
}

#[tactic(auto, unfolding(crate::specs::EntryText::act_words))]
fn write_act(page: &mut Page, script: &Script, act: &Act) -> Result<(), NoMemory>
    ensures { OnOk result
        (page.new ≡ page.old ++ behind (act_words (declared_by script.now) act.now)) }
{
    match act {
        Act::Post(window, answer) => {
            with_window(page, b"post", script, *window)?;
            write_posted(page, *answer)
        }
        Act::Take(number) => with_number(page, b"take", *number),
        Act::Note(word) => with_word(page, b"note", word.as_slice()),
        Act::Reply(answer) => with_word(page, b"reply", replied_word(*answer)),
        Act::Claim(answer) => with_word(page, b"claim", answered_word(*answer)),
        Act::Lock(window) => with_window(page, b"lock", script, *window),
        Act::Unlock(window) => with_window(page, b"unlock", script, *window),
        Act::Draw(window, number) => {
            with_window(page, b"draw", script, *window)?;
            page.number_word(*number)
        }
        Act::Flush(window, count) => {
            with_window(page, b"flush", script, *window)?;
            page.number_word(u64::from(*count))
        }
        Act::SyncDone(window) => with_window(page, b"syncdone", script, *window),
        Act::Exec(number, outcome) => {
            with_number(page, b"exec", *number)?;
            page.word(outcome_word(*outcome))
        }
        Act::Notify(number) => with_number(page, b"notify", *number),
        Act::Begin(true) => with_word(page, b"begin", b"open"),
        Act::Begin(false) => with_word(page, b"begin", b"nothing"),
        Act::Event(number, first, second) => {
            with_number(page, b"event", *number)?;
            write_delivery(page, script, *first)?;
            write_delivery(page, script, *second)
        }
        Act::End(answer) => with_word(page, b"end", end_word(*answer)),
        Act::Stop => page.word(b"stop"),
    }
}

// ---- acts of one part, to which more may be added

fn with_word(page: &mut Page, kind: &[u8], word: &[u8]) -> Result<(), NoMemory>
    ensures { OnOk result (page.new ≡ page.old ++ behind (kind.now ∷ word.now ∷ [])) }
{
    page.word(kind)?;
    page.word(word)
}

fn with_number(page: &mut Page, kind: &[u8], number: u64) -> Result<(), NoMemory>
    ensures { OnOk result (page.new ≡ page.old ++ behind (kind.now ∷ decimal number ∷ [])) }
{
    page.word(kind)?;
    page.number_word(number)
}

fn with_window(page: &mut Page, kind: &[u8], script: &Script, window: u16) -> Result<(), NoMemory>
    ensures { OnOk result (page.new
        ≡ page.old ++ behind (kind.now ∷ window_name (declared_by script.now) window ∷ [])) }
{
    with_word(page, kind, window_name(script, usize::from(window)))
}

fn write_posted(page: &mut Page, answer: Posted) -> Result<(), NoMemory>
    ensures { OnOk result (page.new ≡ page.old ++ behind (posted_words answer)) }
{
    match answer {
        Posted::Accepted(number) => with_number(page, b"ok", number),
        Posted::WouldBlock(count) => with_number(page, b"wouldblock", u64::from(count)),
        Posted::BadPort => page.word(b"badport"),
        Posted::TooDeep => page.word(b"toodeep"),
    }
}

fn write_delivery(
    page: &mut Page,
    script: &Script,
    delivery: Option<(u16, Posted)>,
) -> Result<(), NoMemory>
    ensures { OnOk result (page.new
        ≡ page.old ++ behind (delivery_words (declared_by script.now) delivery)) }
{
    match delivery {
        Some((window, answer)) => {
            page.word(window_name(script, usize::from(window)))?;
            write_posted(page, answer)
        }
        None => Ok(()),
    }
}

// ---- words and names

fn replied_word(answer: Replied) -> &'static [u8]
    ensures { result.now ≡ replied_word answer }
{
    match answer {
        Replied::Accepted => b"ok",
        Replied::Duplicate => b"duplicate",
        Replied::Unwanted => b"unwanted",
    }
}

fn answered_word(answer: Answered) -> &'static [u8]
    ensures { result.now ≡ answered_word answer }
{
    match answer {
        Answered::Reply => b"reply",
        Answered::NoReply => b"noreply",
        Answered::Unknown => b"unknown",
    }
}

fn outcome_word(outcome: Outcome) -> &'static [u8]
    ensures { result.now ≡ outcome_word outcome }
{
    match outcome {
        Outcome::Done => b"done",
        Outcome::StackFull => b"stackfull",
        Outcome::StackEmpty => b"stackempty",
        Outcome::NoView => b"noview",
        Outcome::NoBitmap => b"nobitmap",
        Outcome::OffRange => b"offrange",
        Outcome::Gone => b"gone",
    }
}

fn end_word(answer: EndAnswer) -> &'static [u8]
    ensures { result.now ≡ end_word answer }
{
    match answer {
        EndAnswer::Nothing => b"none",
        EndAnswer::NoReply => b"noreply",
        EndAnswer::Unknown => b"unknown",
    }
}

/// The name of a window, or nothing where there is none.
pub(crate) fn window_name(script: &Script, window: usize) -> &[u8]
    ensures { result.now ≡ window_name (declared_by script.now) window }
{
    match script.windows.get(window) {
        Some(line) => line.name.as_slice(),
        None => b"",
    }
}

/// The name of an application, or nothing where there is none.
pub(crate) fn app_name(script: &Script, app: usize) -> &[u8]
    ensures { result.now ≡ app_name (declared_by script.now) app }
{
    match script.apps.get(app) {
        Some(line) => line.name.as_slice(),
        None => b"",
    }
}
