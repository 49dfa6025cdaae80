use be_bitmap::Bitmap;
use be_color::{Color, Rgb};
use be_command::{NameFault, Names};
use be_picture::{OffFault, OffScreen, read_picture};
use std::alloc::Global;
use std::process::Abort;
use std::test::Fail;

const RED: Rgb = Rgb {
    red: 255,
    green: 0,
    blue: 0,
};

/// The letter of a colour that is shown.
fn letter(rgb: Option<Rgb>) -> char {
    match rgb {
        Some(rgb) if rgb == Rgb::BLACK => 'k',
        Some(rgb) if rgb == Rgb::WHITE => 'w',
        Some(rgb) if rgb == RED => 'r',
        Some(_) => '?',
        None => '-',
    }
}

/// The letters of the pixels, and of the first column and row behind them.
fn shown(alloc: Global, off: &OffScreen, width: u8, height: u8) -> Result<String, Fail> {
    let mut text = String::new(alloc);
    for y in 0..=height {
        for x in 0..=width {
            text.push(letter(off.pixel(i32::from(x), i32::from(y))))?;
        }
        text.push(' ')?;
    }
    Ok(text)
}

/// The root view, and two bitmaps.
fn names(alloc: Global) -> Result<Names, NameFault> {
    let mut names = Names::new(alloc);
    names.add_bitmap("pic")?;
    names.add_bitmap("missing")?;
    Ok(names)
}

/// Plays a picture.
fn play(rt: &impl Abort, alloc: Global, off: &mut OffScreen, text: &str, bitmaps: &[Bitmap]) {
    let names = names(alloc).expect(rt, "names");
    let picture = read_picture(alloc, text.as_bytes(), &names).expect(rt, "a picture");
    off.play(picture, bitmaps);
}

/// Asserts what a picture shows on a new bitmap off the screen.
fn assert_shown(
    rt: &impl Abort,
    alloc: Global,
    side: (u8, u8),
    text: &str,
    letters: &str,
) -> Result<(), Fail> {
    let (width, height) = side;
    let mut off = OffScreen::new(alloc, u16::from(width), u16::from(height))?;
    play(rt, alloc, &mut off, text, &[]);
    assert_eq!(rt;
        shown(alloc, &off, width, height)?.as_str(),
        letters,
        "{text}"
    );
    Ok(())
}

#[test]
fn sizes_are_1_to_256(rt: HostRuntime) {
    let alloc = rt.alloc();
    let sizes = [
        (0, 1, Some(OffFault::Empty)),
        (257, 0, Some(OffFault::Empty)),
        (257, 1, Some(OffFault::TooLarge)),
        (1, 65535, Some(OffFault::TooLarge)),
        (256, 256, None),
    ];
    for (width, height, fault) in sizes {
        assert_eq!(rt; OffScreen::new(alloc, width, height).err(), fault);
    }
}

#[test]
fn pictures_draw_on_white(rt: HostRuntime) -> Result<(), Fail> {
    let alloc = rt.alloc();
    assert_shown(&rt, alloc, (3, 1), "", "www- ---- ")?;
    let row = "fill root 0 0 0 0 high\npush root\nhigh root ff0000\nfill root 1 0 1 0 high\n\
        pop root\nfill root 2 0 9 9 high\n";
    assert_shown(&rt, alloc, (3, 1), row, "krk- ---- ")?;
    assert_shown(
        &rt,
        alloc,
        (2, 2),
        "fill root -9 1 0 9 high",
        "ww- kw- --- ",
    )?;
    assert_shown(
        &rt,
        alloc,
        (2, 1),
        "viewcolor root ff0000\nfill root 0 0 0 0 low",
        "ww- --- ",
    )
}

#[test]
fn states_come_back_behind_a_picture(rt: HostRuntime) -> Result<(), Fail> {
    let alloc = rt.alloc();
    let mut off = OffScreen::new(alloc, 3, 1)?;
    let left_open = "high root ff0000\norigin root 1 0\npush root\nclip root 0 0 0 0\npush root\n\
        fill root 0 0 9 9 high\n";
    play(&rt, alloc, &mut off, left_open, &[]);
    assert_eq!(rt; shown(alloc, &off, 3, 1)?.as_str(), "wrw- ---- ");
    play(&rt, alloc, &mut off, "fill root 0 0 0 0 high\n", &[]);
    assert_eq!(rt; shown(alloc, &off, 3, 1)?.as_str(), "krw- ---- ");
    Ok(())
}

#[test]
fn a_bitmap_is_made_and_drawn(rt: HostRuntime) -> Result<(), Fail> {
    let alloc = rt.alloc();
    let mut off = OffScreen::new(alloc, 2, 2)?;
    play(
        &rt,
        alloc,
        &mut off,
        "high root ff0000\nfill root 1 0 1 0 high\n",
        &[],
    );
    let bitmap = off.into_bitmap()?;
    assert_eq!(rt; (bitmap.width(), bitmap.height()), (2, 2));
    assert_eq!(rt; bitmap.pixel(1, 0), Some(Color::Solid(RED)));
    assert_eq!(rt; bitmap.pixel(1, 1), Some(Color::Solid(Rgb::WHITE)));
    let mut bitmaps = Vec::new(alloc);
    bitmaps.push(bitmap)?;
    let mut other = OffScreen::new(alloc, 3, 1)?;
    let text = "bitmap root missing 0 0\nbitmap root pic 1 0\n";
    play(&rt, alloc, &mut other, text, &bitmaps);
    assert_eq!(rt; shown(alloc, &other, 3, 1)?.as_str(), "wwr- ---- ");
    Ok(())
}
