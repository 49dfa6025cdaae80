ghost use Rattle.be_looper.specs.Laws.{OpensAsLooper, OwnedAsLooper, LocksAsLooper, FreesAsLooper};
ghost use Rattle.be_looper.specs.Laws.{BeginsAsLooper, HandlesAsLooper, RepliesAsLooper};
ghost use Rattle.be_looper.specs.Laws.{DutiesAsLooper, BuffersAsLooper};

/// Where a looper stands for the machine's, as `LooperStandsFor` says it, it answers as that one,
/// and stands for it after each call.
pub fn loopers_are_the_machines()
    ensures opens { OpensAsLooper }
    ensures owned { OwnedAsLooper }
    ensures locks { LocksAsLooper }
    ensures frees { FreesAsLooper }
    ensures begins { BeginsAsLooper }
    ensures handles { HandlesAsLooper }
    ensures replies { RepliesAsLooper }
    ensures duties { DutiesAsLooper }
    ensures buffers { BuffersAsLooper }
{}
