ghost use Rattle.std.specs.Prelude.{◌≡◌};
ghost use Rattle.be_command.specs.Forms.{first_word_of};

/// What the line of a command begins with.
#[derive(Clone, Copy, Debug, PartialEq, Eq)]
pub enum FirstWord {
    Fill,
    Frame,
    Line,
    Text,
    Bitmap,
    High,
    Low,
    ViewColor,
    Mode,
    PenSize,
    Pen,
    Origin,
    Clip,
    Push,
    Pop,
    CopyBits,
    Invalidate,
    Show,
    Hide,
    MoveTo,
    MoveBy,
    ResizeTo,
    Activate,
    Behind,
    Focus,
    Close,
}

impl FirstWord {
    #[tactic(auto, unfolding(crate::specs::Forms::first_word_of))]
    /// The first word of a command that these bytes are.
    pub fn of(word: &[u8]) -> Option<FirstWord>
        ensures { result ≡ first_word_of word.now }
    {
        if word == b"fill".as_slice() {
            Some(FirstWord::Fill)
        } else if word == b"frame".as_slice() {
            Some(FirstWord::Frame)
        } else if word == b"line".as_slice() {
            Some(FirstWord::Line)
        } else if word == b"text".as_slice() {
            Some(FirstWord::Text)
        } else if word == b"bitmap".as_slice() {
            Some(FirstWord::Bitmap)
        } else if word == b"high".as_slice() {
            Some(FirstWord::High)
        } else if word == b"low".as_slice() {
            Some(FirstWord::Low)
        } else if word == b"viewcolor".as_slice() {
            Some(FirstWord::ViewColor)
        } else if word == b"mode".as_slice() {
            Some(FirstWord::Mode)
        } else if word == b"pensize".as_slice() {
            Some(FirstWord::PenSize)
        } else if word == b"pen".as_slice() {
            Some(FirstWord::Pen)
        } else if word == b"origin".as_slice() {
            Some(FirstWord::Origin)
        } else if word == b"clip".as_slice() {
            Some(FirstWord::Clip)
        } else if word == b"push".as_slice() {
            Some(FirstWord::Push)
        } else if word == b"pop".as_slice() {
            Some(FirstWord::Pop)
        } else if word == b"copybits".as_slice() {
            Some(FirstWord::CopyBits)
        } else if word == b"invalidate".as_slice() {
            Some(FirstWord::Invalidate)
        } else if word == b"show".as_slice() {
            Some(FirstWord::Show)
        } else if word == b"hide".as_slice() {
            Some(FirstWord::Hide)
        } else if word == b"moveto".as_slice() {
            Some(FirstWord::MoveTo)
        } else if word == b"moveby".as_slice() {
            Some(FirstWord::MoveBy)
        } else if word == b"resizeto".as_slice() {
            Some(FirstWord::ResizeTo)
        } else if word == b"activate".as_slice() {
            Some(FirstWord::Activate)
        } else if word == b"behind".as_slice() {
            Some(FirstWord::Behind)
        } else if word == b"focus".as_slice() {
            Some(FirstWord::Focus)
        } else if word == b"close".as_slice() {
            Some(FirstWord::Close)
        } else {
            None
        }
    }
}
