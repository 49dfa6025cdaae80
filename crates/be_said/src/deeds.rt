use be_actor::Instruction;
use be_color::Color;
use be_message::{Target, Text};
use be_script::{FilterLine, HandlerLine, InputLine, ViewLine, WindowLine};

/// What a line adds to what was said.
#[derive(Drop)]
pub enum Deed {
    /// The screen's width and height.
    Screen(u16, u16),
    Bitmap { name: Text, width: u16, height: u16 },
    Row(Vec<Color>),
    Window(WindowLine),
    View(ViewLine),
    Handler(HandlerLine),
    Filter(FilterLine),
    /// The body of a handler of a window for a word.
    Body(u16, Target, u32),
    /// The Draw body of a view of a window.
    Draw(u16, u16),
    Program(Text),
    Input(InputLine),
    Step(Instruction),
    /// What was begun is closed.
    End,
}
