ghost use Rattle.std.specs.Prelude.{◌≡◌, ◌-◌, ◌^◌, ◌<◌, [], Some, false, option_map, IfSome};
ghost use Rattle.be_parts.specs.Kept.{IsUnwritten};
ghost use Rattle.be_parts.specs.Effects.{input_stopped, input_used};
ghost use Rattle.be_rules.specs.Slices.{input, input_in};

use crate::log::Log;
use std::alloc::Global;
use std::marker::Model;

/// How many events of input were used, and whether the run has stopped.
#[derive(Drop)]
pub struct InputPart {
    used: u64,
    stopped: bool,
    pub(crate) log: Log,
}

impl Model for InputPart {
    ghost use Rattle.be_parts.specs.Kept.{Kept};
    ghost use Rattle.std.specs.Coded.{codes};
    ghost use Rattle.be_message.specs.Codes.{message_code};
    ghost use Rattle.be_reply.specs.Codes.{cell_code};
    ghost use Rattle.be_rules.specs.Slices.{input};

    ghost Value = { Kept };

    ghost coded = { Prim.hlevel (codes, message_code, cell_code) };

    ghost view = { λ p. record { slice = input p.used p.stopped; log = p.log } };
}

impl InputPart {
    /// No event was used.
    pub fn new(alloc: Global) -> InputPart
        ensures slice { result.slice ≡ input 0 false }
        ensures log { IsUnwritten result.log }
    {
        InputPart {
            used: 0,
            stopped: false,
            log: Log::new(alloc),
        }
    }

    /// How many events were used.
    pub fn used(&self) -> u64
        ensures { option_map (λ known. known.0) (input_in self.now.slice) ≡ Some result }
    {
        self.used
    }

    /// Whether the run has stopped.
    pub fn has_stopped(&self) -> bool
        ensures { option_map (λ known. known.1) (input_in self.now.slice) ≡ Some result }
    {
        self.stopped
    }

    /// One event more was used.
    pub fn use_event(&mut self)
        requires { IfSome (input_in self.old.slice) (λ known. known.0 < 2 ^ 64 - 1) }
        ensures slice { self.new.slice ≡ input_used self.old.slice }
        ensures log { self.new.log ≡ self.old.log }
    {
        self.used += 1;
    }

    /// The run stops.
    pub fn stop(&mut self)
        ensures slice { self.new.slice ≡ input_stopped self.old.slice }
        ensures log { self.new.log ≡ self.old.log }
    {
        self.stopped = true;
    }
}
