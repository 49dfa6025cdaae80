/// Who runs instructions, by its number.
#[derive(Clone, Copy, Debug, PartialEq, Eq)]
pub enum Runner {
    App(u16),
    /// The looper of this window.
    Looper(u16),
}
