use be_handler::Route;
use be_message::Message;
use be_port::Letter;

/// A message in hand.
#[derive(Debug, Drop)]
pub struct Handled {
    /// The letter that brought it, with what is left of its duty.
    pub letter: Letter,
    pub message: Message,
    pub route: Route,
}

/// Who has a looper, and for what.
#[derive(Debug, Drop)]
pub enum Holder {
    Nobody,
    App(u16),
    Itself(Handled),
}
