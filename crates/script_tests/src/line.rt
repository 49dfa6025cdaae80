use be_actor::FieldWord;
use be_color::{Color, Rgb};
use be_command::{FirstWord, Reason};
use be_lex::Words;
use be_line::{Options, Site, Statement, read_fields, read_options};
use be_message::Kind;
use std::test::Fail;

#[test]
fn a_line_begins_with_a_statement(rt: HostRuntime) {
    for (word, want) in [
        (b"screen".as_slice(), Some(Statement::Screen)),
        (b"bitmap".as_slice(), Some(Statement::Bitmap)),
        (b"sync".as_slice(), Some(Statement::Sync)),
        (
            b"fill".as_slice(),
            Some(Statement::Command(FirstWord::Fill)),
        ),
        (b"Screen".as_slice(), None),
        (b"version".as_slice(), None),
    ] {
        assert_eq!(rt; Statement::of(word), want);
    }
    let declared = Statement::Bitmap.as_command();
    assert_eq!(rt; declared, Statement::Command(FirstWord::Bitmap));
}

#[test]
fn a_statement_has_its_places(rt: HostRuntime) {
    for (site, statement, want) in [
        (Site::AtStart, Statement::Screen, None),
        (Site::AtStart, Statement::Window, Some(Reason::Place)),
        (Site::AtStart, Statement::Unlock, Some(Reason::Place)),
        (Site::Outside, Statement::Screen, Some(Reason::Place)),
        (Site::Outside, Statement::Window, None),
        (Site::Outside, Statement::Note, Some(Reason::Place)),
        (Site::AmongRows, Statement::Row, None),
        (Site::AmongRows, Statement::End, Some(Reason::Place)),
        (Site::InHandler, Statement::Reply, None),
        (Site::InHandler, Statement::Send, Some(Reason::NotHere)),
        (Site::InDraw, Statement::Command(FirstWord::Fill), None),
        (
            Site::InDraw,
            Statement::Command(FirstWord::Show),
            Some(Reason::NotHere),
        ),
        (Site::InProgram, Statement::End, None),
        (Site::InProgram, Statement::Unlock, Some(Reason::NotHere)),
        (Site::UnderLock, Statement::Unlock, None),
        (Site::UnderLock, Statement::End, Some(Reason::NotHere)),
        (Site::UnderLock, Statement::On, Some(Reason::Place)),
    ] {
        assert_eq!(rt; site.refuses(statement.seat()), want);
    }
}

#[test]
fn options_stand_once(rt: HostRuntime) {
    let white = Options::NONE;
    let red = Color::Solid(Rgb {
        red: 255,
        green: 0,
        blue: 0,
    });
    for (text, want) in [
        (b"".as_slice(), Ok(white)),
        (
            b"firstclick port=1 color=ff0000".as_slice(),
            Ok(Options {
                first_click: true,
                port: 1,
                color: red,
                avoid_focus: false,
            }),
        ),
        (b"port=100".as_slice(), Ok(white)),
        (b"port=0".as_slice(), Err(Reason::Range)),
        (b"port=101".as_slice(), Err(Reason::Range)),
        (b"port=01".as_slice(), Err(Reason::Shape)),
        (b"port=0 port=0".as_slice(), Err(Reason::Shape)),
        (b"avoidfocus avoidfocus".as_slice(), Err(Reason::Shape)),
        (b"port=999 firstclic".as_slice(), Err(Reason::Shape)),
        (b"feel=modal".as_slice(), Err(Reason::Shape)),
    ] {
        let mut words = Words::of(text);
        assert_eq!(rt; read_options(&mut words), want);
    }
}

/// What the words say: how many fields they have, or what is wrong with them.
fn fields_in(
    rt: &HostRuntime,
    text: &[u8],
    has_message: bool,
) -> Result<Result<usize, Reason>, Fail> {
    let mut words = Words::of(text);
    Ok(read_fields(rt.alloc(), &mut words, has_message)?.map(|fields| fields.len()))
}

#[test]
fn fields_go_together(rt: HostRuntime) -> Result<(), Fail> {
    for (text, want) in [
        (b"".as_slice(), Ok(0)),
        (
            b"a=i:5 b=s: c=b:true d=p:1,-2 e=r:0,0,3,4".as_slice(),
            Ok(5),
        ),
        (b"a=i:1 a=i:2".as_slice(), Ok(2)),
        (b"a=i:1 a=s:x".as_slice(), Err(Reason::Shape)),
        (b"a=i:2147483648".as_slice(), Err(Reason::Range)),
        (b"a=i:2147483648 b=i:x".as_slice(), Err(Reason::Shape)),
        (b"a=p:1,32768".as_slice(), Err(Reason::Range)),
        (b"a=p:1,2,3".as_slice(), Err(Reason::Shape)),
        (b"a=r:1,2,3".as_slice(), Err(Reason::Shape)),
        (b"1a=i:1".as_slice(), Err(Reason::Shape)),
        (b"m=cur a=i:1".as_slice(), Ok(2)),
        (b"m=cur m=i:1".as_slice(), Err(Reason::Shape)),
        (b"m=cur n=cur".as_slice(), Err(Reason::Shape)),
        (b"copy:a copy:b c=i:1".as_slice(), Ok(3)),
        (b"copy:a copy:a".as_slice(), Err(Reason::Shape)),
        (b"copy:a m=cur".as_slice(), Err(Reason::Shape)),
    ] {
        assert_eq!(rt; fields_in(&rt, text, true)?, want);
    }
    assert_eq!(rt; fields_in(&rt, b"m=cur", false)?, Err(Reason::Shape));
    assert_eq!(rt; fields_in(&rt, b"copy:a", false)?, Err(Reason::Shape));
    Ok(())
}

#[test]
fn a_field_keeps_its_value(rt: HostRuntime) -> Result<(), Fail> {
    let mut words = Words::of(b"n=i:-7");
    let fields = read_fields(rt.alloc(), &mut words, false)?
        .ok()
        .ok_or("no fields")?;
    assert_eq!(rt; fields.len(), 1);
    match &fields[0] {
        FieldWord::Value(name, value) => {
            assert_eq!(rt; name.as_slice(), b"n".as_slice());
            assert_eq!(rt; value.kind(), Kind::Int);
        }
        _ => assert!(rt; false, "a value"),
    }
    Ok(())
}
