use crate::pixels::Pixels;
use be_written::{Page, write_screen};
use std::test::Fail;

#[test]
fn rows_as_their_longest_runs(rt: HostRuntime) -> Result<(), Fail> {
    let alloc = rt.alloc();
    for (size, letters, want) in [
        ((1, 1), "w", "screen 1 1\n0 1xffffff\n"),
        ((3, 2), "wwwwww", "screen 3 2\n0 3xffffff\n1 3xffffff\n"),
        (
            (2, 2),
            "wkkw",
            "screen 2 2\n0 1xffffff 1x000000\n1 1x000000 1xffffff\n",
        ),
        (
            (8, 1),
            "wkkbbbkw",
            "screen 8 1\n0 1xffffff 2x000000 3x0a50f3 1x000000 1xffffff\n",
        ),
        (
            (1, 4),
            "bkkw",
            "screen 1 4\n0 1x0a50f3\n1 1x000000\n2 1x000000\n3 1xffffff\n",
        ),
        (
            (12, 1),
            "bbbbbbbbbbbk",
            "screen 12 1\n0 11x0a50f3 1x000000\n",
        ),
        (
            (4, 2),
            "wWwWKkww",
            "screen 4 2\n0 4xffffff\n1 2x000000 2xffffff\n",
        ),
    ] {
        for longest in [1, 2, 3, 100] {
            let pixels = Pixels::new(alloc, size, longest, letters.as_bytes())?;
            let pixels = pixels.ok_or("not as many pixels")?;
            let mut page = Page::new(alloc);
            write_screen(&mut page, &pixels)?;
            assert_eq!(rt; page.as_slice(), want.as_bytes(), "{letters} {longest}");
        }
    }
    Ok(())
}
