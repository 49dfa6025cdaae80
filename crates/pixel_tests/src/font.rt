use be_font::{NotInFont, bit, next_run, row, width_of};
use std::test::Fail;

/// The glyphs as they are printed: for each code from 32 on five columns from the left, two digits
/// each, of which the lowest bit is the top row.
const PRINTED: [u64; 95] = [
    0x0000000000,
    0x00005f0000,
    0x0007000700,
    0x147f147f14,
    0x242a7f2a12,
    0x2313086462,
    0x3649562050,
    0x0005030000,
    0x001c224100,
    0x0041221c00,
    0x2a1c7f1c2a,
    0x08083e0808,
    0x0050300000,
    0x0808080808,
    0x0060600000,
    0x2010080402,
    0x3e5149453e,
    0x00427f4000,
    0x4261514946,
    0x2141454b31,
    0x1814127f10,
    0x2745454539,
    0x3c4a494930,
    0x0171090503,
    0x3649494936,
    0x064949291e,
    0x0036360000,
    0x0056360000,
    0x0814224100,
    0x1414141414,
    0x0041221408,
    0x0201510906,
    0x324979413e,
    0x7e1111117e,
    0x7f49494936,
    0x3e41414122,
    0x7f4141221c,
    0x7f49494941,
    0x7f09090901,
    0x3e4149497a,
    0x7f0808087f,
    0x00417f4100,
    0x2040413f01,
    0x7f08142241,
    0x7f40404040,
    0x7f020c027f,
    0x7f0408107f,
    0x3e4141413e,
    0x7f09090906,
    0x3e4151215e,
    0x7f09192946,
    0x4649494931,
    0x01017f0101,
    0x3f4040403f,
    0x1f2040201f,
    0x3f4038403f,
    0x6314081463,
    0x0708700807,
    0x6151494543,
    0x007f414100,
    0x0204081020,
    0x0041417f00,
    0x0402010204,
    0x4040404040,
    0x0001020400,
    0x2054545478,
    0x7f48444438,
    0x3844444420,
    0x384444487f,
    0x3854545418,
    0x087e090102,
    0x0c5252523e,
    0x7f08040478,
    0x00447d4000,
    0x2040443d00,
    0x7f10284400,
    0x00417f4000,
    0x7c04180478,
    0x7c08040478,
    0x3844444438,
    0x7c14141408,
    0x081414187c,
    0x7c08040408,
    0x4854545420,
    0x043f444020,
    0x3c4040207c,
    0x1c2040201c,
    0x3c4030403c,
    0x4428102844,
    0x0c5050503c,
    0x4464544c44,
    0x0008364100,
    0x00007f0000,
    0x0041360800,
    0x0804081008,
];

/// How many bits there are in eight printed glyphs each, the last time in seven.
const COUNTS: [u32; 12] = [80, 60, 114, 81, 135, 115, 121, 76, 100, 91, 89, 60];

#[test]
fn the_printed_table(rt: HostRuntime) -> Result<(), Fail> {
    let mut counts = [0u32; 12];
    for code in 0..=255u8 {
        for row in 0..=255u8 {
            for column in 0..=255u8 {
                let found = bit(code, column, row);
                if code < 32 || 126 < code || 4 < column || 6 < row {
                    assert!(rt; !found);
                } else {
                    let printed = PRINTED[usize::from(code - 32)];
                    let shift = u32::from(8 * (4 - column) + row);
                    same!(rt; found, printed >> shift & 1 == 1);
                    let line = usize::from(code - 32) / 8;
                    counts[line] = counts[line].saturating_add(u32::from(found));
                }
            }
        }
    }
    same!(rt; counts, COUNTS);
    Ok(())
}

const DRAWN: [(u8, [&[u8; 5]; 7]); 5] = [
    (
        b'A',
        [
            b".###.", b"#...#", b"#...#", b"#...#", b"#####", b"#...#", b"#...#",
        ],
    ),
    (
        b'g',
        [
            b".....", b".####", b"#...#", b"#...#", b".####", b"....#", b".###.",
        ],
    ),
    (
        b'@',
        [
            b".###.", b"#...#", b"....#", b".##.#", b"#.#.#", b"#.#.#", b".###.",
        ],
    ),
    (
        b'%',
        [
            b"##...", b"##..#", b"...#.", b"..#..", b".#...", b"#..##", b"...##",
        ],
    ),
    (
        b'~',
        [
            b".....", b".....", b".#...", b"#.#.#", b"...#.", b".....", b".....",
        ],
    ),
];

#[test]
fn glyphs_drawn_by_hand(rt: HostRuntime) -> Result<(), Fail> {
    for (code, drawn) in &DRAWN {
        for row in 0..7u8 {
            for column in 0..5u8 {
                let drawn_bit = drawn[usize::from(row)][usize::from(column)] == b'#';
                same!(rt; bit(*code, column, row), drawn_bit, (*code, column, row));
            }
        }
    }
    Ok(())
}

const RUNS: [(u8, u8, u8, Option<(u8, u8)>); 17] = [
    // `#####`
    (b'A', 4, 0, Some((0, 4))),
    (b'A', 4, 3, Some((3, 4))),
    (b'A', 4, 4, Some((4, 4))),
    (b'A', 4, 5, None),
    // `#.#.#`
    (b'~', 3, 0, Some((0, 0))),
    (b'~', 3, 1, Some((2, 2))),
    (b'~', 3, 3, Some((4, 4))),
    // `.##.#`
    (b'@', 3, 0, Some((1, 2))),
    (b'@', 3, 2, Some((2, 2))),
    (b'@', 3, 3, Some((4, 4))),
    // `##...`
    (b'%', 0, 0, Some((0, 1))),
    (b'%', 0, 2, None),
    // outside the table, and far to the right
    (b'A', 7, 0, None),
    (31, 0, 0, None),
    (127, 3, 0, None),
    (b'A', 4, 8, None),
    (b'A', 4, 255, None),
];

#[test]
fn runs_of_a_row(rt: HostRuntime) -> Result<(), Fail> {
    for (code, row, from, run) in &RUNS {
        same!(rt; next_run(*code, *row, *from), *run, (*code, *row, *from));
    }
    Ok(())
}

#[test]
fn widths_of_texts(rt: HostRuntime) -> Result<(), Fail> {
    let long = [b'm'; 1024];
    for (text, width) in [
        (b"".as_slice(), Ok(0)),
        (b"a".as_slice(), Ok(6)),
        (b" ~".as_slice(), Ok(12)),
        (long.as_slice(), Ok(6144)),
        (b"\x61\x0a".as_slice(), Err(NotInFont { at: 1 })),
        (b"\x1f\x7f".as_slice(), Err(NotInFont { at: 0 })),
        (b"ab\x7f\x1f".as_slice(), Err(NotInFont { at: 2 })),
    ] {
        same!(rt; width_of(text), width);
    }
    Ok(())
}

const GLYPHS: [(u8, [u8; 7]); 4] = [
    (
        b'A',
        [
            0b01110000, 0b10001000, 0b10001000, 0b10001000, 0b11111000, 0b10001000, 0b10001000,
        ],
    ),
    (
        b'%',
        [
            0b11000000, 0b11001000, 0b00010000, 0b00100000, 0b01000000, 0b10011000, 0b00011000,
        ],
    ),
    (b'~', [0, 0, 0b01000000, 0b10101000, 0b00010000, 0, 0]),
    (b' ', [0; 7]),
];

const OUTSIDE: [(u8, u8); 7] = [
    (0, 0),
    (31, 0),
    (127, 3),
    (255, 6),
    (b'A', 7),
    (b'~', 10),
    (b'A', 255),
];

#[test]
fn rows_of_glyphs(rt: HostRuntime) {
    for (code, rows) in &GLYPHS {
        for line in 0..7u8 {
            same!(rt; row(*code, line), rows[usize::from(line)], (line, *code));
        }
    }
    for (code, line) in &OUTSIDE {
        same!(rt; row(*code, *line), 0, (*line, *code));
    }
}
