ghost use Rattle.std.specs.Prelude.{◌≡◌};

use be_message::Target;
use std::marker::Model;

/// That a handler has a body for a word: what its `MessageReceived` does then.
#[derive(Debug, Drop)]
pub struct Body {
    target: Target,
    what: u32,
}

impl Model for Body {
    ghost use Rattle.be_handler.specs.Routes as routes;

    ghost Value = { routes.Body };

    ghost view = { λ b. record { target = b.target; what = b.what } };
}

impl Body {
    /// What this handler does for the word.
    pub fn new(target: Target, what: u32) -> Body
        ensures { result ≡ record { target = target; what = what } }
    {
        Body { target, what }
    }
}
