ghost use Rattle.std.specs.Prelude.{◌≡◌};
ghost use Rattle.app_server.specs.Commands.{first_word_of};

/// What the words of a command begin with.
#[derive(Clone, Copy, Debug, PartialEq, Eq)]
pub enum FirstWord {
    Run,
    Serial,
    Check,
    Make,
    Drill,
    Replay,
    Explain,
    Picture,
    Archive,
    Unarchive,
    Buttons,
}

impl FirstWord {
    /// The first word of a command that this word is.
    #[tactic(auto, unfolding(crate::specs::Commands::first_word_of))]
    pub fn of(word: &str) -> Option<FirstWord>
        ensures { result ≡ first_word_of word.now }
    {
        if word == "run" {
            Some(FirstWord::Run)
        } else if word == "serial" {
            Some(FirstWord::Serial)
        } else if word == "check" {
            Some(FirstWord::Check)
        } else if word == "make" {
            Some(FirstWord::Make)
        } else if word == "drill" {
            Some(FirstWord::Drill)
        } else if word == "replay" {
            Some(FirstWord::Replay)
        } else if word == "explain" {
            Some(FirstWord::Explain)
        } else if word == "picture" {
            Some(FirstWord::Picture)
        } else if word == "archive" {
            Some(FirstWord::Archive)
        } else if word == "unarchive" {
            Some(FirstWord::Unarchive)
        } else if word == "buttons" {
            Some(FirstWord::Buttons)
        } else {
            None
        }
    }
}
