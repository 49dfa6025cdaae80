ghost use Rattle.report_tests.specs.Lines.{lines_by};

use be_reader::read;
use be_written::{Notes, Page, Runner, write_traces};
use std::test::Fail;

/// An application and two windows.
const SCRIPT: &[u8] = b"screen 40 30\n\
    window a 0 0 9 9\n\
    window bb 10 10 19 19\n\
    app m\n\
    end\n";

/// The looper of the first window noted nothing.
#[derive(Drop)]
struct Lines;

impl Notes for Lines {
    ghost told = { λ it who. lines_by who };

    fn told(&self, runner: Runner) -> &[u8] {
        match runner {
            Runner::App(_) => b"note one\n",
            Runner::Looper(0) => b"",
            Runner::Looper(_) => b"note two\n",
        }
    }
}

#[test]
fn notes_stand_under_their_runners(rt: HostRuntime) -> Result<(), Fail> {
    let alloc = rt.alloc();
    let script = read(alloc, SCRIPT)?;
    let mut page = Page::new(alloc);
    write_traces(&mut page, &script, &Lines)?;
    assert_eq!(rt;
        page.as_slice(),
        b"traces\napp m\nnote one\nloop a\nloop bb\nnote two\n".as_slice()
    );
    Ok(())
}
