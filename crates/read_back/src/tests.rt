use super::*;
use be_flat::FlatError;
use std::test::Fail;

#[test]
fn gives_the_same_back(rt: HostRuntime) -> Result<(), Fail> {
    let ping = b"GNIP\x01LONG\x01n\x01\x05\0\0\0".as_slice();
    for rounds in [1, 3] {
        let last = read_back(rt.alloc(), ping, rounds)?;
        assert_eq!(rt; last.as_slice(), ping);
        assert_eq!(rt;
            read_back(rt.alloc(), b"GNIP", rounds).err(),
            Some(FlatError::Truncated { at: 4 })
        );
    }
    Ok(())
}

#[test]
fn knows_its_words(rt: HostRuntime) {
    for (word, rounds) in [
        ("1", Some(1)),
        ("4294967295", Some(4294967295)),
        ("4294967296", None),
        ("0", None),
        ("01", None),
        ("+1", None),
        ("", None),
        ("1x", None),
    ] {
        assert_eq!(rt; rounds_of(word), rounds);
    }
}
