//! The server's parts as parts that keep what is noted, and that threads may share.
ghost use Rattle.std.specs.Prelude.{◌≡◌, IfOk};
ghost use Rattle.be_hall.specs.Hands.{meant};
ghost use Rattle.be_hall.specs.Machine.{IsAskable};
ghost use Rattle.be_noted.specs.Noting.{IsNotedVerdict, noted_of};
ghost use Rattle.be_parts.specs.Parts.{log_of, meaning_of};
ghost use Rattle.be_rules.specs.Rules.{world_machine};
ghost use Rattle.be_jotted.specs.Jotting.{noted_machine};

use crate::noting::{NotedMeaning, Noting};
use crate::wanting::note_entry;
use be_asking::activity_of;
use be_geom::NoMemory;
use be_hall::{Held, Parts, Verdict};
use be_machine::Entry;
use be_parts::Part;
use be_world::ReadyEntry;
use std::snapshot::Snapshot;

/// An entry that may be made, what is noted of it, and the parts in hand from which that was seen.
#[derive(Drop)]
pub struct NotedEntry {
    pub(crate) ready: ReadyEntry,
    pub(crate) note: Option<Vec<u8>>,
    pub(crate) seen: Snapshot<Held<Part>>,
}

impl Noting {
    /// What becomes of the entry with these parts, and what is noted of it.
    fn note(&self, held: &mut Held<Part>, entry: &Entry) -> Result<Verdict<NotedEntry>, NoMemory>
        requires { IsAskable (world_machine self.now) (meant meaning_of held.old.parts) }
        ensures room { held.new.room ≡ held.old.room }
        ensures same { meant noted_of held.new.parts ≡ meant noted_of held.old.parts }
        ensures logs { meant log_of held.new.parts ≡ meant log_of held.old.parts }
        ensures answer { IfOk result (IsNotedVerdict self.now held.new.parts entry.now) }
    {
        match self.world.ready(held, entry)? {
            Verdict::NotLegal => Ok(Verdict::NotLegal),
            Verdict::Needs(place) => Ok(Verdict::Needs(place)),
            Verdict::Ready(ready) => {
                held.ascends();
                let script = self.world.script();
                let Some(who) = activity_of(script, entry.actor) else {
                    unreachable!()
                };
                let note = note_entry(
                    self.world.alloc(),
                    script,
                    held,
                    entry.actor,
                    who,
                    ready.work(),
                )?;
                let seen = Snapshot::of(held);
                Ok(Verdict::Ready(NotedEntry { ready, note, seen }))
            }
        }
    }
}

impl Parts for Noting {
    ghost use Rattle.be_noted.specs.NotingLaws.{noting_is_lawful};
    ghost use Rattle.be_noted.specs.Noting.{IsNotedEntry, noted_entry, noted_of};
    ghost use Rattle.be_noted.specs.Noting.{noted_seen};
    ghost use Rattle.be_parts.specs.Parts.{log_of, spare_of};

    type Part = Part;

    type Entry = Entry;

    type Ready = NotedEntry;

    type Meaning = NotedMeaning;

    ghost machine = { λ it. noted_machine it };

    ghost meaning = { λ part. noted_of part };

    ghost log = { λ part. log_of part };

    ghost spare = { λ part. spare_of part };

    ghost entry_of = { λ ready. noted_entry ready };

    ghost seen_by = { λ ready. noted_seen ready };

    ghost prepared = { λ it held ready. IsNotedEntry it held ready };

    ghost lawful = { λ it. noting_is_lawful it };

    fn places(&self) -> u32 {
        self.world.places()
    }

    /// What the entry needs is made, and what is noted of it is written.
    fn prepare(
        &self,
        held: &mut Held<Part>,
        entry: &Entry,
    ) -> Result<Verdict<NotedEntry>, NoMemory> {
        self.note(held, entry)
    }

    fn perform(&self, held: &mut Held<Part>, ready: NotedEntry, number: u64) {
        let NotedEntry {
            ready,
            note,
            seen: _,
        } = ready;
        self.world.make(held, ready, number, note);
    }

    /// What was noted stays.
    fn unlog(&self, part: &mut Part) -> Option<(u64, Entry)> {
        part.unlog()
    }
}
