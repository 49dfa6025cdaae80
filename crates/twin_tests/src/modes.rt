use crate::board::Board;
use be_color::Rgb;
use std::alloc::Global;
use std::test::Fail;

/// The colour of a pixel of this colour once it was filled in a mode, with the high colour 646414
/// and the low colour 010203.
fn filled(alloc: Global, old: &str, mode: &str, pattern: &str) -> Result<Option<[u8; 3]>, Fail> {
    let mut board = Board::new(alloc)?;
    let first = format!(in alloc; "high root {old}")?;
    let mode = format!(in alloc; "mode root {mode}")?;
    let last = format!(in alloc; "fill root 0 2 0 2 {pattern}")?;
    for line in [
        first.as_str(),
        "fill root 0 2 0 2 high",
        "high root 646414",
        "low root 010203",
        mode.as_str(),
        last.as_str(),
    ] {
        let _done = board.execute(alloc, line)?;
    }
    Ok(match board.cell(0, 2) {
        Some(cell) => Some(parts(cell.rgb)),
        None => None,
    })
}

/// How much of red, green and blue a colour has.
fn parts(rgb: Rgb) -> [u8; 3] {
    [rgb.red, rgb.green, rgb.blue]
}

const LAID_ON: [(&str, &str, &str, [u8; 3]); 16] = [
    ("c8640a", "copy", "high", [0x64, 0x64, 0x14]),
    ("c8640a", "copy", "low", [1, 2, 3]),
    ("c8640a", "over", "high", [0x64, 0x64, 0x14]),
    ("c8640a", "over", "low", [0xc8, 0x64, 0x0a]),
    ("c8640a", "erase", "high", [1, 2, 3]),
    ("c8640a", "invert", "high", [0x37, 0x9b, 0xf5]),
    ("c8640a", "add", "high", [0xff, 0xc8, 0x1e]),
    ("c8640a", "subtract", "high", [0x64, 0, 0]),
    ("c8650b", "blend", "high", [0x96, 0x64, 0x0f]),
    ("c8640a", "min", "high", [0x64, 0x64, 0x0a]),
    ("c8640a", "max", "high", [0xc8, 0x64, 0x14]),
    ("c8640a", "select", "high", [0xc8, 0x64, 0x0a]),
    ("646414", "select", "high", [1, 2, 3]),
    ("010203", "select", "high", [0x64, 0x64, 0x14]),
    ("c8640a", "select", "low", [0xc8, 0x64, 0x0a]),
    ("c8640a", "add", "low", [0xc8, 0x64, 0x0a]),
];

#[test]
fn each_mode_lays_colours_on(rt: HostRuntime) -> Result<(), Fail> {
    for (old, mode, pattern, due) in &LAID_ON {
        let laid = filled(rt.alloc(), old, mode, pattern)?;
        same!(rt; laid, Some(*due), (*mode, *pattern, *old));
    }
    Ok(())
}
