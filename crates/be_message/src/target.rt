/// The handler of a window that a message is for.
#[derive(Clone, Copy, Debug, PartialEq, Eq)]
pub enum Target {
    /// The window itself: `BWindow`.
    Window,
    /// The view of this number; 0 is the root.
    View(u16),
    /// The plain handler of this number: a `BHandler` that is neither view nor window.
    Plain(u16),
}
