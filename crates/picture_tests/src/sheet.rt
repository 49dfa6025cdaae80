use be_command::Names;
use be_picture::read_picture;
use be_sheet::draw;
use std::test::Fail;

const TWO_COLORS: &[u8] = b"fill root 0 0 0 0 high\npush root\nhigh root ff0000\n\
    fill root 1 0 1 0 high\npop root\nfill root 2 0 9 9 high\n";

#[test]
fn draws_pictures(rt: HostRuntime) -> Result<(), Fail> {
    let names = Names::new(rt.alloc());
    for (text, width, height, sheet) in [
        (
            TWO_COLORS,
            3,
            1,
            b"screen 3 1\n0 1x000000 1xff0000 1x000000\nend\n".as_slice(),
        ),
        (
            b"".as_slice(),
            3,
            1,
            b"screen 3 1\n0 3xffffff\nend\n".as_slice(),
        ),
        (
            b"fill root 1 1 1 1 high\n".as_slice(),
            2,
            2,
            b"screen 2 2\n0 2xffffff\n1 1xffffff 1x000000\nend\n".as_slice(),
        ),
    ] {
        let picture = read_picture(rt.alloc(), text, &names)?;
        let page = draw(rt.alloc(), picture, width, height)?;
        assert_eq!(rt; page.as_slice(), sheet);
    }
    Ok(())
}
