use be_machine::Act;
use be_message::Text;

/// An act that isn't made yet. It takes no memory.
#[derive(Drop)]
pub enum Deed<'a> {
    /// A note's word is the script's.
    Notes(&'a Text),
    /// Any other act.
    Makes(Act),
}

/// Whether an activity may have now what it wants.
#[derive(Drop)]
pub enum Answer<'a> {
    May(Deed<'a>),
    NotYet,
    /// The part at this place is needed to tell.
    Needs(u32),
}
