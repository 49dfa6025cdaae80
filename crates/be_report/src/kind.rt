ghost use Rattle.std.specs.Prelude.{◌≡◌};
ghost use Rattle.be_report.specs.Entries.{kind_of};

/// What kind of act an entry has.
#[derive(Clone, Copy, Debug, PartialEq, Eq)]
pub(crate) enum Kind {
    Post,
    Take,
    Note,
    Reply,
    Claim,
    Lock,
    Unlock,
    Draw,
    Flush,
    SyncDone,
    Exec,
    Notify,
    Begin,
    Event,
    End,
    Stop,
}

impl Kind {
    /// The kind of an act that begins with these bytes.
    #[tactic(auto, unfolding(crate::specs::Entries::kind_of))]
    pub(crate) fn of(word: &[u8]) -> Option<Kind>
        ensures { result ≡ kind_of word.now }
    {
        if word == b"post".as_slice() {
            Some(Kind::Post)
        } else if word == b"take".as_slice() {
            Some(Kind::Take)
        } else if word == b"note".as_slice() {
            Some(Kind::Note)
        } else if word == b"reply".as_slice() {
            Some(Kind::Reply)
        } else if word == b"claim".as_slice() {
            Some(Kind::Claim)
        } else if word == b"lock".as_slice() {
            Some(Kind::Lock)
        } else if word == b"unlock".as_slice() {
            Some(Kind::Unlock)
        } else if word == b"draw".as_slice() {
            Some(Kind::Draw)
        } else if word == b"flush".as_slice() {
            Some(Kind::Flush)
        } else if word == b"syncdone".as_slice() {
            Some(Kind::SyncDone)
        } else if word == b"exec".as_slice() {
            Some(Kind::Exec)
        } else if word == b"notify".as_slice() {
            Some(Kind::Notify)
        } else if word == b"begin".as_slice() {
            Some(Kind::Begin)
        } else if word == b"event".as_slice() {
            Some(Kind::Event)
        } else if word == b"end".as_slice() {
            Some(Kind::End)
        } else if word == b"stop".as_slice() {
            Some(Kind::Stop)
        } else {
            None
        }
    }
}
