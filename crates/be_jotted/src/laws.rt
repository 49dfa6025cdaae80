ghost use Rattle.be_jotted.specs.Jotting.{PartsKeepTraces};

/// What a legal history notes at a runner's part is the text of the runner's trace.
pub fn parts_keep_traces()
    ensures { PartsKeepTraces }
{}
