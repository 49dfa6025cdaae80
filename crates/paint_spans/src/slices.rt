use be_color::{Color, Mode, Rgb};
use be_geom::NoMemory;
use be_span::{Brush, Cell, paint_alike, paint_bits};
use cell_sums::sum_of_rows;
use std::alloc::Global;

/// How many cells the slice has.
const CELLS: usize = 1_000_000;

const GREY: Cell = Cell {
    rgb: Rgb {
        red: 100,
        green: 110,
        blue: 120,
    },
    dirty: false,
};

const WHITE: Cell = Cell {
    rgb: Rgb::WHITE,
    dirty: false,
};

fn brush_of(mode: Mode) -> Brush {
    Brush {
        mode,
        high: Color::Solid(Rgb {
            red: 9,
            green: 90,
            blue: 200,
        }),
        low: Color::Solid(GREY.rgb),
    }
}

/// A slice, one half of it white and the other grey.
fn slice(alloc: Global) -> Result<Vec<Cell>, NoMemory> {
    let mut cells = vec![in alloc; GREY; CELLS]?;
    let half = cells.len() / 2;
    cells[..half].fill(WHITE);
    Ok(cells)
}

/// Paints a slice in a mode, with the high colour.
pub fn mode_rounds(alloc: Global, mode: Mode, rounds: u32) -> Result<u64, NoMemory> {
    let mut cells = slice(alloc)?;
    let brush = brush_of(mode);
    for _round in 0..rounds {
        paint_alike(&mut cells, brush, brush.high);
    }
    Ok(sum_of_rows(&cells))
}

/// Paints a slice by the bits of a byte.
pub fn bit_rounds(alloc: Global, rounds: u32) -> Result<u64, NoMemory> {
    let mut cells = slice(alloc)?;
    let brush = brush_of(Mode::Copy);
    for _round in 0..rounds {
        paint_bits(&mut cells, brush, 0xa5, 3, false);
    }
    Ok(sum_of_rows(&cells))
}
