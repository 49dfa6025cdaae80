use be_flat::{FlatError, flatten, unflatten};
use be_message::{FindFault, Kind, Value};
use std::alloc::Global;
use std::process::Abort;
use std::test::Fail;

/// PING with n = 5: a what, one field, its type, its name, one value.
const PING: &[u8] = b"GNIP\x01LONG\x01n\x01\x05\0\0\0";

/// A message that holds a message, and so on, to a depth.
fn nested(alloc: Global, depth: usize) -> Result<Vec<u8>, Fail> {
    let mut bytes = Vec::new(alloc);
    for _ in 1..depth {
        bytes.extend_from_slice(b"GNIP\x01MSGG\x01m\x01")?;
    }
    bytes.extend_from_slice(b"GNIP\0")?;
    Ok(bytes)
}

/// A message with so many fields, which have the names aa, ab and on.
fn wide(alloc: Global, fields: u8) -> Result<Vec<u8>, Fail> {
    let mut bytes = Vec::new(alloc);
    bytes.extend_from_slice(b"GNIP")?;
    bytes.push(fields)?;
    for k in 0..fields {
        bytes.extend_from_slice(b"BOOL\x02")?;
        bytes.push(b'a' + k / 26)?;
        bytes.push(b'a' + k % 26)?;
        bytes.extend_from_slice(b"\x01\x01")?;
    }
    Ok(bytes)
}

/// A message with one field that has so many values.
fn long(alloc: Global, values: u8) -> Result<Vec<u8>, Fail> {
    let mut bytes = Vec::new(alloc);
    bytes.extend_from_slice(b"GNIP\x01BOOL\x01n")?;
    bytes.push(values)?;
    for k in 0..values {
        bytes.push(k % 2)?;
    }
    Ok(bytes)
}

/// A message with a text of so many bytes.
fn text(alloc: Global, length: u16) -> Result<Vec<u8>, Fail> {
    let mut bytes = Vec::new(alloc);
    bytes.extend_from_slice(b"GNIP\x01CSTR\x01n\x01")?;
    bytes.extend_from_slice(&length.to_le_bytes())?;
    for _ in 0..length {
        bytes.push(b'~')?;
    }
    Ok(bytes)
}

const NOT_FOUND: [(&str, Kind, usize, FindFault); 3] = [
    ("x", Kind::Int, 0, FindFault::NameNotFound),
    ("n", Kind::Text, 0, FindFault::BadType),
    ("n", Kind::Int, 1, FindFault::BadIndex),
];

#[test]
fn finds_what_was_spelt(rt: HostRuntime) -> Result<(), Fail> {
    let message = unflatten(rt.alloc(), PING)?;
    same!(rt; message.what(), 0x5049_4e47);
    same!(rt; message.field_count(), 1);
    assert!(rt; matches!(message.find("n", Kind::Int, 0), Ok(Value::Int(5))));
    for (name, kind, index, fault) in &NOT_FOUND {
        same!(rt; message.find(name, *kind, *index).err(), Some(*fault), *name);
    }
    Ok(())
}

/// What is written of what was read.
fn again(alloc: Global, bytes: &[u8]) -> Result<Vec<u8>, Fail> {
    let message = unflatten(alloc, bytes)?;
    Ok(flatten(alloc, &message)?)
}

const GIVEN_BACK: [&[u8]; 9] = [
    b"\0\0\0\0\0",
    PING,
    b"GNIP\x01BOOL\x01n\x02\x01\0",
    b"GNIP\x01LONG\x01n\x02\xff\xff\xff\x7f\0\0\0\x80",
    b"GNIP\x01CSTR\x01n\x02\x02\0 ~\0\0",
    b"GNIP\x01BPNT\x01n\x02\xfe\xff\x02\x01\0\x80\xff\x7f",
    b"GNIP\x01RECT\x01n\x01\0\0\x01\0\xff\xff\x01\x02",
    b"GNIP\x01MSGG\x01n\x02GNIP\0\x01\0\0\0\0",
    b"GNIP\x02BOOL\x20abcdefghijklmnopqrstuvwxyz_01234\x01\0BOOL\x01z\x01\x01",
];

#[test]
fn gives_the_bytes_back(rt: HostRuntime) -> Result<(), Fail> {
    let alloc = rt.alloc();
    for bytes in &GIVEN_BACK {
        same!(rt; again(alloc, bytes)?.as_slice(), *bytes);
    }
    Ok(())
}

/// Asserts that the bytes are read and written so again.
fn assert_given_back(rt: &impl Abort, alloc: Global, bytes: Vec<u8>) -> Result<(), Fail> {
    same!(rt; again(alloc, bytes.as_slice())?.as_slice(), bytes.as_slice());
    Ok(())
}

#[test]
fn gives_the_longest_back(rt: HostRuntime) -> Result<(), Fail> {
    let alloc = rt.alloc();
    assert_given_back(&rt, alloc, nested(alloc, 16)?)?;
    assert_given_back(&rt, alloc, wide(alloc, 255)?)?;
    assert_given_back(&rt, alloc, long(alloc, 255)?)?;
    assert_given_back(&rt, alloc, text(alloc, 1024)?)
}

/// Whether each front of the bytes is truncated at its end.
fn each_front_is_truncated(alloc: Global, bytes: &[u8]) -> bool {
    for at in 0..bytes.len() {
        if unflatten(alloc, &bytes[..at]).err() != Some(FlatError::Truncated { at }) {
            return false;
        }
    }
    true
}

#[test]
fn a_front_is_truncated_at_its_end(rt: HostRuntime) -> Result<(), Fail> {
    let alloc = rt.alloc();
    assert!(rt; each_front_is_truncated(alloc, PING));
    let deep = nested(alloc, 3)?;
    assert!(rt; each_front_is_truncated(alloc, deep.as_slice()));
    let spoken = text(alloc, 3)?;
    assert!(rt; each_front_is_truncated(alloc, spoken.as_slice()));
    Ok(())
}

const FAILURES: [(&[u8], FlatError); 20] = [
    (
        b"GNIP\x01LONG\x01n\x01\x05\0\0\0\0",
        FlatError::Extra { at: 16 },
    ),
    (b"GNIP\0\0", FlatError::Extra { at: 5 }),
    // a type
    (b"GNIP\x01XONG", FlatError::BadByte { at: 5 }),
    (b"GNIP\x01long", FlatError::BadByte { at: 5 }),
    (b"GNIP\x01BANG", FlatError::BadByte { at: 6 }),
    (b"GNIP\x01BONG", FlatError::BadByte { at: 7 }),
    (b"GNIP\x01BPNL", FlatError::BadByte { at: 8 }),
    // a name
    (b"GNIP\x01LONG\0", FlatError::BadByte { at: 9 }),
    (b"GNIP\x01LONG\x21n", FlatError::BadByte { at: 9 }),
    (b"GNIP\x01LONG\x021n", FlatError::BadByte { at: 10 }),
    (b"GNIP\x01LONG\x02_n", FlatError::BadByte { at: 10 }),
    (b"GNIP\x01LONG\x02nN", FlatError::BadByte { at: 11 }),
    (
        b"GNIP\x02BOOL\x02na\x01\0LONG\x02na\x01",
        FlatError::BadByte { at: 20 },
    ),
    // a number of values
    (
        b"GNIP\x01LONG\x01n\0\x05\0\0\0",
        FlatError::BadByte { at: 11 },
    ),
    // a value
    (b"GNIP\x01BOOL\x01n\x01\x02", FlatError::BadByte { at: 12 }),
    (
        b"GNIP\x01CSTR\x01n\x01\x01\x04",
        FlatError::BadByte { at: 13 },
    ),
    (
        b"GNIP\x01CSTR\x01n\x01\0\x05",
        FlatError::BadByte { at: 13 },
    ),
    (
        b"GNIP\x01CSTR\x01n\x01\x02\0a\x1f",
        FlatError::BadByte { at: 15 },
    ),
    (
        b"GNIP\x01CSTR\x01n\x01\x01\0\x7f",
        FlatError::BadByte { at: 14 },
    ),
    // the first of two
    (
        b"GNIP\x01BOOL\x01n\x02\x02\x02",
        FlatError::BadByte { at: 12 },
    ),
];

#[test]
fn names_the_first_failure(rt: HostRuntime) -> Result<(), Fail> {
    let alloc = rt.alloc();
    for (bytes, fault) in &FAILURES {
        same!(rt; unflatten(alloc, bytes).err(), Some(*fault), *bytes);
    }
    // the type of a message at depth 16, of which the first letter has no place
    let deep = nested(alloc, 17)?;
    let fault = FlatError::BadByte { at: 15 * 12 + 5 };
    same!(rt; unflatten(alloc, deep.as_slice()).err(), Some(fault));
    Ok(())
}
