use be_color::Pattern;
use be_command::Command;
use be_geom::{Change, Point, Rect};
use be_picture::{RecordFault, Recorder};
use std::test::Fail;

const FRAME: Rect = Rect {
    left: 0,
    top: 0,
    right: 1,
    bottom: 1,
};

const PATTERN: Pattern = Pattern { rows: [255; 8] };

const PLACE: Point = Point { x: 0, y: 0 };

/// What a command was answered, without the command.
#[derive(Clone, Copy, Debug, PartialEq, Eq)]
enum Answer {
    Recorded,
    NotDrawing,
    Unbalanced,
    TooDeep,
    TooMany,
    NoMemory,
}

fn told(recorder: &mut Recorder, command: Command) -> Answer {
    match recorder.record(command) {
        Ok(()) => Answer::Recorded,
        Err(fault) => answer_of(&fault),
    }
}

fn answer_of(fault: &RecordFault) -> Answer {
    match fault {
        RecordFault::NotDrawing(_) => Answer::NotDrawing,
        RecordFault::Unbalanced(_) => Answer::Unbalanced,
        RecordFault::TooDeep(_) => Answer::TooDeep,
        RecordFault::TooMany(_) => Answer::TooMany,
        RecordFault::NoMemory(_) => Answer::NoMemory,
    }
}

#[test]
fn records_what_draws_on_the_first_view(rt: HostRuntime) -> Result<(), Fail> {
    let mut recorder = Recorder::new(rt.alloc());
    assert_eq!(rt;
        told(&mut recorder, Command::Fill(0, FRAME, PATTERN)),
        Answer::Recorded
    );
    assert_eq!(rt;
        told(&mut recorder, Command::Fill(1, FRAME, PATTERN)),
        Answer::NotDrawing
    );
    assert_eq!(rt; told(&mut recorder, Command::Pop(1)), Answer::NotDrawing);
    assert_eq!(rt;
        told(&mut recorder, Command::CopyBits(0, FRAME, PLACE)),
        Answer::NotDrawing
    );
    assert_eq!(rt;
        told(&mut recorder, Command::Invalidate(0, FRAME)),
        Answer::NotDrawing
    );
    assert_eq!(rt;
        told(&mut recorder, Command::Change(Change::Show)),
        Answer::NotDrawing
    );
    assert_eq!(rt; told(&mut recorder, Command::EndUpdate), Answer::NotDrawing);
    assert_eq!(rt;
        told(&mut recorder, Command::PenSize(0, 2)),
        Answer::Recorded
    );
    let picture = recorder.finish();
    assert!(rt;
        matches!(
            picture.commands(),
            [Command::Fill(0, _, _), Command::PenSize(0, 2)]
        )
    );
    Ok(())
}

#[test]
fn counts_open_states(rt: HostRuntime) -> Result<(), Fail> {
    let mut recorder = Recorder::new(rt.alloc());
    assert_eq!(rt; told(&mut recorder, Command::Pop(0)), Answer::Unbalanced);
    for _state in 0..15 {
        assert_eq!(rt; told(&mut recorder, Command::Push(0)), Answer::Recorded);
    }
    assert_eq!(rt; told(&mut recorder, Command::Push(0)), Answer::TooDeep);
    assert_eq!(rt; told(&mut recorder, Command::Pop(0)), Answer::Recorded);
    assert_eq!(rt; told(&mut recorder, Command::Push(0)), Answer::Recorded);
    assert_eq!(rt; told(&mut recorder, Command::Push(0)), Answer::TooDeep);
    for _state in 0..15 {
        assert_eq!(rt; told(&mut recorder, Command::Pop(0)), Answer::Recorded);
    }
    assert_eq!(rt; told(&mut recorder, Command::Pop(0)), Answer::Unbalanced);
    assert_eq!(rt; recorder.finish().commands().len(), 32);
    Ok(())
}

#[test]
fn holds_4096_commands(rt: HostRuntime) -> Result<(), Fail> {
    let mut recorder = Recorder::new(rt.alloc());
    for _command in 0..4096 {
        assert_eq!(rt;
            told(&mut recorder, Command::Pen(0, PLACE)),
            Answer::Recorded
        );
    }
    assert_eq!(rt;
        told(&mut recorder, Command::Pen(0, PLACE)),
        Answer::TooMany
    );
    assert_eq!(rt; told(&mut recorder, Command::Push(0)), Answer::TooMany);
    assert_eq!(rt; told(&mut recorder, Command::Pop(0)), Answer::Unbalanced);
    assert_eq!(rt; told(&mut recorder, Command::EndUpdate), Answer::NotDrawing);
    assert_eq!(rt; recorder.finish().commands().len(), 4096);
    Ok(())
}
