use be_command::Reason;
use be_reader::{ScriptFault, read};
use be_trees::{read_archive, write_archive, write_tree};
use std::test::Fail;

const TWO_VIEWS: &[u8] =
    b"screen 9 9\nwindow a 0 0 7 5\nview a k root 1 2 3 4 right top\nwindow b 1 1 3 3\n";

const ARCHIVE: &[u8] = b"574549560542504e540473697a650107000500\
    4c4f4e4706706172656e740100000000\
    52454354056672616d65010100020003000400\
    4c4f4e47066163726f73730101000000\
    4c4f4e4704646f776e0100000000\n";

const ROOT_ALONE: &[u8] = b"574549560142504e540473697a650102000200\n";

#[test]
fn writes_archives(rt: HostRuntime) -> Result<(), Fail> {
    let script = read(rt.alloc(), TWO_VIEWS)?;
    for (window, line) in [
        (0, ARCHIVE),
        (1, ROOT_ALONE),
        (2, b"none\n".as_slice()),
        (31, b"none\n".as_slice()),
    ] {
        assert_eq!(rt;
            write_archive(rt.alloc(), &script, window)?.as_slice(),
            line
        );
    }
    Ok(())
}

#[test]
fn reads_archives(rt: HostRuntime) -> Result<(), Fail> {
    for (line, text) in [
        (
            ARCHIVE,
            b"size 7 5\nview 1 0 1 2 3 4 right top\n".as_slice(),
        ),
        (ROOT_ALONE, b"size 2 2\n".as_slice()),
    ] {
        let tree = read_archive(rt.alloc(), line)?;
        assert_eq!(rt; write_tree(rt.alloc(), &tree)?.as_slice(), text);
    }
    Ok(())
}

#[test]
fn refuses_other_texts(rt: HostRuntime) -> Result<(), Fail> {
    for text in [
        b"".as_slice(),
        b"\n",
        b"none\n",
        // A first digit 6, no line feed, a carriage return, a second line, an odd number of digits,
        // and a digit in upper case.
        b"674549560142504e540473697a650102000200\n",
        b"574549560142504e540473697a650102000200",
        b"574549560142504e540473697a650102000200\r\n",
        b"574549560142504e540473697a650102000200\n\n",
        b"574549560142504e540473697a65010200020\n",
        b"574549560142504E540473697a650102000200\n",
    ] {
        let fault = ScriptFault::At {
            line: 1,
            reason: Reason::Shape,
        };
        assert_eq!(rt; read_archive(rt.alloc(), text).err(), Some(fault));
    }
    Ok(())
}

#[test]
fn refuses_a_long_text(rt: HostRuntime) -> Result<(), Fail> {
    let mut text = Vec::new(rt.alloc());
    text.resize(1_048_577, b'0')?;
    let fault = ScriptFault::At {
        line: 0,
        reason: Reason::TooLong,
    };
    assert_eq!(rt;
        read_archive(rt.alloc(), text.as_slice()).err(),
        Some(fault)
    );
    Ok(())
}
