use be_geom::Point;
use be_opening::opening;
use be_parts::Part;
use be_reader::read;
use std::test::Fail;

/// Two windows, the first with a view in its root, and one application.
const SCRIPT: &[u8] =
    b"screen 64 48\nwindow a 3 4 20 30 port=7\nview a v root 1 1 5 5 left top\nwindow b 0 0 9 9\napp m\nend\n";

fn kind(part: &Part) -> &'static str {
    match part {
        Part::Desk(_) => "desk",
        Part::Input(_) => "input",
        Part::Cell(_) => "cell",
        Part::Looper(_) => "looper",
        Part::Port(_) => "port",
        Part::Link(_) => "link",
        Part::Pane(_) => "pane",
    }
}

#[test]
fn a_run_begins_with_the_parts_by_kind_and_window(rt: HostRuntime) -> Result<(), Fail> {
    let alloc = rt.alloc();
    let script = read(alloc, SCRIPT)?;
    let parts = opening(alloc, &script)?;
    let kinds = [
        "desk", "input", "cell", "looper", "looper", "port", "port", "link", "link", "pane", "pane",
    ];
    same!(rt; parts.len(), kinds.len());
    for (part, want) in parts.iter().zip(kinds) {
        same!(rt; kind(part), want);
    }
    let Some(Part::Desk(desk)) = parts.get(0) else {
        panic!(rt; "another part stands there");
    };
    let stack = &desk.desk().stack;
    same!(rt; stack.len(), 2);
    assert!(rt; stack.owner_at(5, 5).is_none());
    let Some(Part::Port(port)) = parts.get(5) else {
        panic!(rt; "another part stands there");
    };
    same!(rt; port.port().capacity(), 7);
    let Some(Part::Pane(pane)) = parts.get(9) else {
        panic!(rt; "another part stands there");
    };
    same!(rt; pane.pane().place, Point { x: 3, y: 4 });
    same!(rt; pane.pane().tree().len(), 2);
    Ok(())
}
