use be_handler::Route;
use be_message::{Message, Target, Value};
use be_port::Sender;
use be_reader::read;
use be_written::{Note, Page, Runner, Said, Taken, write_note};
use std::test::Fail;

const PING: u32 = 0x5049_4e47;

/// Two windows, whose views and plain handlers have different numbers in the script and the window.
const SCRIPT: &[u8] = b"screen 40 30\n\
    window a 0 0 9 9\n\
    window bb 10 10 19 19\n\
    view a va root 1 1 5 5 left top\n\
    view bb vb root 1 1 5 5 left top\n\
    view bb vc root 1 1 5 5 left top\n\
    handler a ha window\n\
    handler bb hb window\n\
    app m\n\
    end\n";

#[test]
fn letters_that_were_taken(rt: HostRuntime) -> Result<(), Fail> {
    let alloc = rt.alloc();
    let script = read(alloc, SCRIPT)?;
    let mut message = Message::new(alloc, PING);
    message.add("n", Value::Int(7))?;
    for (runner, number, sender, hop, target, route, want) in [
        (
            Runner::Looper(0),
            1,
            Sender::Input,
            0,
            Target::Window,
            Route::Handler(Target::Window),
            b"take 1 input 0 PING window window n=LONG:7\n".as_slice(),
        ),
        (
            Runner::Looper(1),
            20,
            Sender::Looper(0),
            1,
            Target::View(2),
            Route::Handler(Target::View(1)),
            b"take 20 loop:a 1 PING vc vb n=LONG:7\n".as_slice(),
        ),
        (
            Runner::Looper(1),
            18446744073709551615,
            Sender::App(0),
            255,
            Target::Plain(0),
            Route::Skipped,
            b"take 18446744073709551615 app:m 255 PING hb / n=LONG:7\n".as_slice(),
        ),
        (
            Runner::Looper(0),
            3,
            Sender::Twin(1),
            0,
            Target::View(0),
            Route::Unknown,
            b"take 3 twin:bb 0 PING root - n=LONG:7\n".as_slice(),
        ),
        (
            Runner::App(0),
            4,
            Sender::Looper(1),
            2,
            Target::Window,
            Route::Handler(Target::Window),
            b"take 4 loop:bb 2 PING   n=LONG:7\n".as_slice(),
        ),
    ] {
        let mut page = Page::new(alloc);
        let taken = Taken {
            sender,
            hop,
            target,
            route,
            message: Said::Whole(&message),
        };
        write_note(&mut page, &script, runner, &Note::Took(number, taken))?;
        assert_eq!(rt; page.as_slice(), want);
    }
    Ok(())
}
