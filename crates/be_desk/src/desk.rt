use be_input::Pointing;
use be_stack::Stack;

/// What is known of all windows but for their pixels. There are views for each window, and their
/// root has its window's size.
#[derive(Debug, Drop)]
pub struct Desk {
    pub stack: Stack,
    pub pointing: Pointing,
}
