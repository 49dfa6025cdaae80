use be_archive::{ArchiveFault, archive, unarchive};
use be_flat::flatten;
use be_follow::{Across, Down, Follow};
use be_geom::{Point, Rect};
use be_message::{Message, Value};
use be_views::ViewTree;
use std::alloc::Global;
use std::test::Fail;

/// The characters of `VIEW`, of `fIEW` and of `PING`.
const VIEW: u32 = 0x5649_4557;

const OTHER: u32 = 0x6649_4557;

const PING: u32 = 0x5049_4e47;

const FRAME: Rect = Rect {
    left: 1,
    top: 2,
    right: 3,
    bottom: 4,
};

/// The archive of a view of 8 by 6 pixels with one in it, whose frame is 1 2 3 4 and which follows
/// right and top.
const SPELLED: &[u8] = b"WEIV\x05BPNT\x04size\x01\x07\0\x05\0\
LONG\x06parent\x01\0\0\0\0RECT\x05frame\x01\x01\0\x02\0\x03\0\x04\0\
LONG\x06across\x01\x01\0\0\0LONG\x04down\x01\0\0\0\0";

/// What a message says of a further view: its parent, and the numbers of its mode.
#[derive(Clone, Copy)]
struct Row {
    parent: i32,
    across: i32,
    down: i32,
}

fn below(parent: i32) -> Row {
    Row {
        parent,
        across: 0,
        down: 0,
    }
}

fn add_size(message: &mut Message, x: i16, y: i16) -> Result<(), Fail> {
    message.add("size", Value::Point(Point { x, y }))?;
    Ok(())
}

/// A message in the form of an archive, of views that may be impossible.
fn message_of(alloc: Global, what: u32, size: (i16, i16), rows: &[Row]) -> Result<Message, Fail> {
    let mut message = Message::new(alloc, what);
    add_size(&mut message, size.0, size.1)?;
    for row in rows {
        message.add("parent", Value::Int(row.parent))?;
    }
    for _row in rows {
        message.add("frame", Value::Rect(FRAME))?;
    }
    for row in rows {
        message.add("across", Value::Int(row.across))?;
    }
    for row in rows {
        message.add("down", Value::Int(row.down))?;
    }
    Ok(message)
}

fn refusal(alloc: Global, message: &Message) -> Option<ArchiveFault> {
    unarchive(alloc, message).err()
}

#[test]
fn spells_and_reads_a_tree(rt: HostRuntime) -> Result<(), Fail> {
    let alloc = rt.alloc();
    let mode = Follow {
        across: Across::Right,
        down: Down::Top,
    };
    let mut tree = ViewTree::new(alloc, 7, 5)?;
    tree.add(0, FRAME, mode)?;
    let message = archive(alloc, &tree)?;
    let bytes = flatten(alloc, &message)?;
    assert_eq!(rt; bytes.as_slice(), SPELLED);

    let again = unarchive(alloc, &message)?;
    let root = Rect {
        left: 0,
        top: 0,
        right: 7,
        bottom: 5,
    };
    assert_eq!(rt; again.len(), 2);
    assert_eq!(rt; again.frame_of(0), Some(root));
    assert_eq!(rt; again.frame_of(1), Some(FRAME));
    assert_eq!(rt; again.mode_of(1), Some(mode));
    assert_eq!(rt; again.parent(1), Some(0));
    Ok(())
}

#[test]
fn refuses_what_is_no_archive(rt: HostRuntime) -> Result<(), Fail> {
    let alloc = rt.alloc();
    let none = Some(ArchiveFault::NotArchive);
    assert_eq!(rt; refusal(alloc, &Message::new(alloc, PING)), none);
    assert_eq!(rt; refusal(alloc, &Message::new(alloc, VIEW)), none);
    assert_eq!(rt;
        refusal(alloc, &message_of(alloc, OTHER, (7, 5), &[below(0)])?),
        none
    );

    let mut two_sizes = message_of(alloc, VIEW, (7, 5), &[below(0)])?;
    add_size(&mut two_sizes, 7, 5)?;
    assert_eq!(rt; refusal(alloc, &two_sizes), none);

    let mut two_parents = message_of(alloc, VIEW, (7, 5), &[below(0)])?;
    two_parents.add("parent", Value::Int(0))?;
    assert_eq!(rt; refusal(alloc, &two_parents), none);

    let mut one_field_more = message_of(alloc, VIEW, (7, 5), &[below(0)])?;
    one_field_more.add("more", Value::Int(0))?;
    assert_eq!(rt; refusal(alloc, &one_field_more), none);
    Ok(())
}

#[test]
fn refuses_another_order_and_type(rt: HostRuntime) -> Result<(), Fail> {
    let alloc = rt.alloc();
    let none = Some(ArchiveFault::NotArchive);
    let mut another_order = Message::new(alloc, VIEW);
    another_order.add("parent", Value::Int(0))?;
    add_size(&mut another_order, 7, 5)?;
    another_order.add("frame", Value::Rect(FRAME))?;
    another_order.add("across", Value::Int(0))?;
    another_order.add("down", Value::Int(0))?;
    assert_eq!(rt; refusal(alloc, &another_order), none);

    let mut another_type = Message::new(alloc, VIEW);
    another_type.add("size", Value::Rect(FRAME))?;
    assert_eq!(rt; refusal(alloc, &another_type), none);
    Ok(())
}

const WIDE: Row = Row {
    parent: 0,
    across: 4,
    down: 0,
};

const LOW: Row = Row {
    parent: 1,
    across: 3,
    down: 4,
};

const LAST: Row = Row {
    parent: 1,
    across: 3,
    down: 3,
};

#[test]
fn refuses_a_view_that_cannot_be(rt: HostRuntime) -> Result<(), Fail> {
    let alloc = rt.alloc();
    let bad_view = |view| Some(ArchiveFault::BadView { view });
    let bad_size = Some(ArchiveFault::BadSize);
    let too_many = Some(ArchiveFault::TooMany);
    for (size, rows, fault) in [
        ((0, 0), [].as_slice(), None),
        ((-1, 0), [].as_slice(), bad_size),
        ((0, -1), [below(1)].as_slice(), bad_size),
        ((7, 5), [below(0), LAST].as_slice(), None),
        ((7, 5), [below(1)].as_slice(), bad_view(1)),
        ((7, 5), [below(-1)].as_slice(), bad_view(1)),
        ((7, 5), [WIDE, LOW].as_slice(), bad_view(1)),
        ((7, 5), [below(0), LOW].as_slice(), bad_view(2)),
        ((7, 5), [below(0); 31].as_slice(), None),
        ((7, 5), [below(0); 32].as_slice(), too_many),
        ((7, 5), [below(9); 32].as_slice(), too_many),
        ((-1, 5), [below(0); 32].as_slice(), bad_size),
    ] {
        let message = message_of(alloc, VIEW, size, rows)?;
        assert_eq!(rt; refusal(alloc, &message), fault);
    }
    Ok(())
}

#[test]
fn reads_views_down_to_depth_8(rt: HostRuntime) -> Result<(), Fail> {
    let alloc = rt.alloc();
    let mut rows = [below(0); 8];
    for (place, row) in rows.iter_mut().enumerate() {
        row.parent = place as i32;
    }
    let deepest = message_of(alloc, VIEW, (7, 5), &rows[..7])?;
    assert_eq!(rt; refusal(alloc, &deepest), None);
    let deeper = message_of(alloc, VIEW, (7, 5), &rows)?;
    assert_eq!(rt;
        refusal(alloc, &deeper),
        Some(ArchiveFault::BadView { view: 8 })
    );
    Ok(())
}
