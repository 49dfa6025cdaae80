use be_geom::{Point, Rect};

const EDGE: Rect = Rect {
    left: 32766,
    top: -32768,
    right: 32767,
    bottom: -32768,
};

#[test]
fn holds_its_edges(rt: HostRuntime) {
    let rect = Rect {
        left: -1,
        top: 0,
        right: 1,
        bottom: 0,
    };
    for (x, y, held) in [
        (-1, 0, true),
        (1, 0, true),
        (-2, 0, false),
        (2, 0, false),
        (0, -1, false),
        (0, 1, false),
    ] {
        assert_eq!(rt; rect.contains(Point { x, y }), held, "at {x}, {y}");
    }
    assert!(rt; !rect.is_empty());
    assert!(rt; rect.intersect(EDGE).is_none());
    assert_eq!(rt; rect.intersect(rect), Some(rect));
}

#[test]
fn a_rect_stays_in_its_range(rt: HostRuntime) {
    for (dx, dy, stays) in [
        (0, 0, true),
        (-65534, 65535, true),
        (1, 0, false),
        (-65535, 0, false),
        (0, -1, false),
        (0, 65536, false),
        (2147483647, 0, false),
        (0, -2147483648, false),
    ] {
        assert_eq!(rt; EDGE.offset(dx, dy).is_ok(), stays, "by {dx}, {dy}");
    }
}
