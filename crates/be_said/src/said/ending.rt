ghost use Rattle.std.specs.Prelude.{◌≡◌, option_map};
ghost use Rattle.be_said.specs.Whole.{said_by, whole};

use crate::begun::Begun;
use crate::said::SoFar;
use be_script::Script;

impl SoFar {
    /// The script, where the screen was said and all that was begun is closed.
    pub fn into_script(self) -> Option<Script>
        ensures { option_map said_by result ≡ whole self }
    {
        let screen = self.screen?;
        match self.begun {
            Begun::Nothing => Some(Script {
                screen,
                bitmaps: self.bitmaps,
                windows: self.windows,
                views: self.views,
                handlers: self.handlers,
                filters: self.filters,
                bodies: self.bodies,
                draws: self.draws,
                apps: self.apps,
                input: self.input,
            }),
            Begun::Bitmap { .. }
            | Begun::HandlerBody { .. }
            | Begun::DrawBody { .. }
            | Begun::Program { .. } => None,
        }
    }
}
