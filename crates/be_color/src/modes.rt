/// How a drawing command joins its colour to a pixel's: `drawing_mode` of the Be Book, in which
/// these are `B_OP_COPY` to `B_OP_SELECT`.
#[derive(Clone, Copy, Debug, PartialEq, Eq)]
pub enum Mode {
    Copy,
    Over,
    Erase,
    Invert,
    Add,
    Subtract,
    Blend,
    Min,
    Max,
    Select,
}
