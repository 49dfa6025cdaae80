//! The server's parts as parts that threads may share.
use crate::owning::places;
use crate::preparing::ReadyEntry;
use crate::world::World;
use be_geom::NoMemory;
use be_hall::{Held, Parts, Verdict};
use be_machine::Entry;
use be_parts::{Meaning, Part};

impl Parts for World {
    ghost use Rattle.be_parts.specs.Parts.{log_of, meaning_of, spare_of};
    ghost use Rattle.be_rules.proofs.Lawfully.{world_lawful};
    ghost use Rattle.be_rules.specs.Rules.{world_machine};
    ghost use Rattle.be_world.specs.Preparing.{IsPreparedEntry, entry_in, seen_in};

    type Part = Part;

    type Entry = Entry;

    type Ready = ReadyEntry;

    type Meaning = Meaning;

    ghost machine = { λ it. world_machine it };

    ghost meaning = { λ part. meaning_of part };

    ghost log = { λ part. log_of part };

    ghost spare = { λ part. spare_of part };

    ghost entry_of = { λ ready. entry_in ready };

    ghost seen_by = { λ ready. seen_in ready };

    ghost prepared = { λ it held ready. IsPreparedEntry it held ready };

    ghost lawful = { λ it. world_lawful it };

    fn places(&self) -> u32 {
        places(&self.script)
    }

    fn prepare(
        &self,
        held: &mut Held<Part>,
        entry: &Entry,
    ) -> Result<Verdict<ReadyEntry>, NoMemory> {
        self.ready(held, entry)
    }

    fn perform(&self, held: &mut Held<Part>, ready: ReadyEntry, number: u64) {
        self.make(held, ready, number, None);
    }

    fn unlog(&self, part: &mut Part) -> Option<(u64, Entry)> {
        part.unlog()
    }
}
