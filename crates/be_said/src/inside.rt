use be_command::Names;
use be_handler::Chain;
use be_message::Text;

/// What was said of one window, as its next lines are judged by it.
#[derive(Drop)]
pub(crate) struct Inside {
    /// The names that its commands may use.
    pub names: Names,
    /// The names of its plain handlers.
    pub plain: Vec<Text>,
    /// How deep each of its views lies, the root 1 deep.
    pub depths: Vec<u8>,
    /// How messages find their handlers; the body that was begun is there already.
    pub chain: Chain,
    /// Which views have a Draw body, that which was begun among them.
    pub draws: Vec<bool>,
}
