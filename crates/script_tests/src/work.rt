ghost use Rattle.std.specs.Prelude.{◌<◌};

use crate::plain::is_plain;
use be_actor::{Draft, Instruction, Program};
use be_color::{Color, Pattern, Rgb};
use be_command::Command;
use be_follow::{Across, Down, Follow};
use be_geom::{Change, NoMemory, Point, Rect};
use be_handler::Rule;
use be_message::{Target, Text};
use be_script::{
    AppLine, BodyLine, DrawLine, FilterLine, InputLine, Script, ViewLine, WindowLine, work,
};
use std::alloc::Global;
use std::process::Abort;
use std::test::Fail;

const FRAME: Rect = Rect {
    left: 0,
    top: 0,
    right: 3,
    bottom: 3,
};

const CORNER: Point = Point { x: 0, y: 0 };

const KEY_DOWN: u32 = 0x4b45_5944;

const MOUSE_DOWN: u32 = 0x4d44_574e;

const MOUSE_MOVED: u32 = 0x4d4d_4f56;

const MOUSE_UP: u32 = 0x4d55_505f;

/// So many windows.
fn windows(alloc: Global, count: u16) -> Result<Script, NoMemory> {
    let mut windows = Vec::new(alloc);
    for _window in 0..count {
        windows.push(WindowLine {
            name: Text::new(alloc, b"w")?,
            frame: FRAME,
            first_click: false,
            avoid_focus: false,
            port: 100,
            color: Color::Solid(Rgb::WHITE),
        })?;
    }
    Ok(Script {
        screen: (4, 3),
        bitmaps: Vec::new(alloc),
        windows,
        views: Vec::new(alloc),
        handlers: Vec::new(alloc),
        filters: Vec::new(alloc),
        bodies: Vec::new(alloc),
        draws: Vec::new(alloc),
        apps: Vec::new(alloc),
        input: Vec::new(alloc),
    })
}

fn post(alloc: Global, window: u16, target: Target, what: u32) -> Instruction {
    let words = Vec::new(alloc);
    Instruction::Post(window, target, Draft { what, words })
}

fn fill() -> Instruction {
    Instruction::Draw(Command::Fill(0, FRAME, Pattern::HIGH))
}

fn change(change: Change) -> Instruction {
    Instruction::Draw(Command::Change(change))
}

fn body(window: u16, target: Target, what: u32, steps: Vec<Instruction>) -> BodyLine {
    BodyLine {
        window,
        target,
        what,
        program: Program { steps },
    }
}

fn app(alloc: Global, steps: Vec<Instruction>) -> Result<AppLine, NoMemory> {
    Ok(AppLine {
        name: Text::new(alloc, b"m")?,
        program: Program { steps },
    })
}

/// A view of window 0.
fn view(alloc: Global) -> Result<ViewLine, NoMemory> {
    Ok(ViewLine {
        window: 0,
        name: Text::new(alloc, b"v")?,
        parent: 0,
        frame: FRAME,
        mode: Follow {
            across: Across::Left,
            down: Down::Top,
        },
        color: Color::Clear,
    })
}

fn work_of(rt: &impl Abort, alloc: Global, script: &Script) -> Result<u64, NoMemory> {
    assert!(rt; is_plain(script));
    work(alloc, script)
}

#[test]
fn a_window_that_is_shown_and_filled(rt: HostRuntime) -> Result<(), Fail> {
    let alloc = rt.alloc();
    let mut script = windows(alloc, 1)?;
    let show = change(Change::Show);
    let steps = vec![in alloc; Instruction::Lock(0), show, fill(), Instruction::Unlock]?;
    script.apps.push(app(alloc, steps)?)?;
    // 1, 3 and an update of 8, 3 and 2, and the end.
    assert_eq!(rt; work_of(&rt, alloc, &script)?, 18);
    Ok(())
}

#[test]
fn two_bodies_that_post_to_each_other(rt: HostRuntime) -> Result<(), Fail> {
    let alloc = rt.alloc();
    let mut script = windows(alloc, 2)?;
    let there = vec![in alloc; post(alloc, 1, Target::Window, 2)]?;
    let back = vec![in alloc; post(alloc, 0, Target::Window, 1)]?;
    let start = vec![in alloc; post(alloc, 0, Target::Window, 1)]?;
    script.bodies.push(body(0, Target::Window, 1, there))?;
    script.bodies.push(body(1, Target::Window, 2, back))?;
    script.apps.push(app(alloc, start)?)?;
    // A message of hop 7 costs 4, and each hop before 4 more.
    assert_eq!(rt; work_of(&rt, alloc, &script)?, 34);
    Ok(())
}

/// Bodies for the words up to a number, each of which posts so often to the next.
fn chained(alloc: Global, count: u32, posts: u32) -> Result<Script, NoMemory>
    requires { count < 1000 }
{
    let mut script = windows(alloc, 1)?;
    for what in 0..count {
        let mut steps = Vec::new(alloc);
        for _post in 0..posts {
            steps.push(post(alloc, 0, Target::Window, what + 1))?;
        }
        script.bodies.push(body(0, Target::Window, what, steps))?;
    }
    let start = vec![in alloc; post(alloc, 0, Target::Window, 0)]?;
    script.apps.push(app(alloc, start)?)?;
    Ok(script)
}

#[test]
fn each_body_posts_to_the_next(rt: HostRuntime) -> Result<(), Fail> {
    // Twice: 5 at hop 7, and before it 5 and twice what is behind: 15, 35, 75, 155, 315, 635, 1275.
    // Where each posts 256 times, the sum is past the last number.
    for (posts, work) in [(2u32, 1277u64), (256, 18_446_744_073_709_551_615)] {
        let script = chained(rt.alloc(), 40, posts)?;
        assert_eq!(rt; work_of(&rt, rt.alloc(), &script)?, work);
    }
    Ok(())
}

/// Window 0 has a view, bodies of its root for each word of input, and a Draw body of 7.
fn ready(alloc: Global) -> Result<Script, NoMemory> {
    let mut script = windows(alloc, 1)?;
    let root = Target::View(0);
    let one = vec![in alloc; fill()]?;
    let two = vec![in alloc; fill(), fill()]?;
    let three = vec![in alloc; fill(), fill(), fill()]?;
    let four = vec![in alloc; fill(), fill(), fill(), fill()]?;
    let steps = vec![in alloc; fill(), Instruction::Flush, fill()]?;
    script.views.push(view(alloc)?)?;
    script.bodies.push(body(0, root, KEY_DOWN, one))?;
    script.bodies.push(body(0, root, MOUSE_DOWN, two))?;
    script.bodies.push(body(0, root, MOUSE_MOVED, three))?;
    script.bodies.push(body(0, root, MOUSE_UP, four))?;
    script.draws.push(DrawLine {
        window: 0,
        view: 1,
        program: Program { steps },
    })?;
    Ok(script)
}

#[test]
fn events_of_input(rt: HostRuntime) -> Result<(), Fail> {
    // An update costs 15, and the four messages 6, 9, 12 and 15.
    for (event, cost) in [
        (InputLine::Key(65), 7),
        (InputLine::Press(CORNER), 25),
        (InputLine::Move(CORNER), 25),
        (InputLine::Release(CORNER), 16),
        (InputLine::After(0), 1),
    ] {
        let mut script = ready(rt.alloc())?;
        script.input.push(event)?;
        assert_eq!(rt; work_of(&rt, rt.alloc(), &script)?, cost + 1);
    }
    Ok(())
}

#[test]
fn a_filter_redirects(rt: HostRuntime) -> Result<(), Fail> {
    let alloc = rt.alloc();
    for (rule, work) in [
        (Rule::Pass, 5),
        (Rule::Redirect(Target::View(0)), 11),
        (Rule::Skip, 5),
    ] {
        let mut script = ready(alloc)?;
        script.filters.push(FilterLine {
            window: 0,
            list: None,
            what: Some(MOUSE_DOWN),
            rule,
        })?;
        let steps = vec![in alloc; post(alloc, 0, Target::Window, MOUSE_DOWN)]?;
        script.apps.push(app(alloc, steps)?)?;
        assert_eq!(rt; work_of(&rt, alloc, &script)?, work);
    }
    Ok(())
}
