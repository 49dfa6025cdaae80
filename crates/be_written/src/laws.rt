ghost use Rattle.be_written.specs.Notings.{TracesAreOwnTexts};

/// What a runner notes of a history is what is noted of its own entries, one behind the other.
pub fn a_runner_notes_its_own_entries()
    ensures { TracesAreOwnTexts }
{}
