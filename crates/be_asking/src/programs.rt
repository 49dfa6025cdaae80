//! The instructions at which applications and loopers are.
ghost use Rattle.std.specs.Prelude.{◌≡◌, ◌<◌, ◌==◌, ◌&&◌, [], find, length, map, nat_le};
ghost use Rattle.std.specs.Prelude.{option_map, slice_get, None};
ghost use Rattle.be_asking.specs.Bodies.{is_body_in};
ghost use Rattle.std.specs.Option.{option_map_or};
ghost use Rattle.be_machine.specs.Program.{app_program, lock_before, update_program};
ghost use Rattle.be_script.specs.Script.{declared_by};
ghost use Rattle.be_script.specs.Windows as windows;

use be_actor::{Instruction, Program};
use be_geom::Rect;
use be_handler::Route;
use be_message::Target;
use be_script::{BodyLine, DrawLine, Script};

/// The program of an application that is there.
pub fn app_steps(script: &Script, app: u16) -> &Program
    requires { app < length (declared_by script.now).apps }
    ensures { result.now ≡ app_program (declared_by script.now) app }
{
    &script.apps[app as usize].program
}

/// The instruction of a program at this step. None behind the last.
pub fn step_at(program: &Program, step: u32) -> Option<&Instruction>
    ensures { option_map (λ step. step.now) result ≡ slice_get program.now step }
{
    program.steps.get(step as usize)
}

/// Whether a program has no instruction at this step any more.
pub(crate) fn is_past(program: &Program, step: u32) -> bool
    ensures { result ≡ nat_le (length program.now) step }
{
    step as usize >= program.steps.len()
}

/// The window that is locked where so many instructions of an application's program are done. It
/// looks back to the last lock.
pub(crate) fn lock_at(program: &Program, step: u32) -> Option<u16>
    ensures { result ≡ lock_before None program.now step }
{
    let mut behind = program.steps.len().min(step as usize);
    while behind > 0 {
        behind -= 1;
        match &program.steps[behind] {
            Instruction::Lock(window) => return Some(*window),
            Instruction::Unlock => return None,
            _ => {}
        }
    }
    None
}

/// The body to which a message of this word was routed. None where it was routed to none. It looks
/// at each body of the script.
#[tactic(auto, using(crate::proofs::FoundBodies::found_there), unfolding(be_script::specs::Windows::body_program))]
fn body_of(script: &Script, window: u16, what: u32, route: Route) -> Option<&Program>
    ensures { option_map_or (λ program. program.now) result []
        ≡ windows.body_program (declared_by script.now) window what route }
{
    match route {
        Route::Handler(target) => {
            let line = body_line(&script.bodies, window, target, what)?;
            Some(&line.program)
        }
        Route::Skipped | Route::Unknown => None,
    }
}

/// The instruction of that body at this step. None behind the last.
pub fn body_step(
    script: &Script,
    window: u16,
    what: u32,
    route: Route,
    step: u32,
) -> Option<&Instruction>
    ensures { option_map (λ step. step.now) result
        ≡ slice_get (windows.body_program (declared_by script.now) window what route) step }
{
    step_at(body_of(script, window, what, route)?, step)
}

fn body_line(bodies: &[BodyLine], window: u16, target: Target, what: u32) -> Option<&BodyLine>
    ensures { option_map (λ line. line.now) result
        ≡ find (is_body_in window target what) bodies.now }
{
    bodies
        .iter()
        .find(|line| is_body_in(line, window, target, what))
}

// It is declared in this window, of this handler for this word.
fn is_body_in(line: &BodyLine, window: u16, target: Target, what: u32) -> bool
    ensures { result ≡ is_body_in window target what line.now }
{
    line.window == window && line.target == target && line.what == what
}

/// The Draw body of a view, if it has one. It looks at each Draw body of the script.
#[tactic(auto, unfolding(be_script::specs::Windows::draw_program))]
fn draw_of(script: &Script, window: u16, view: u16) -> Option<&Program>
    ensures { option_map_or (λ program. program.now) result []
        ≡ windows.draw_program (declared_by script.now) window view }
{
    let line = draw_line(&script.draws, window, view)?;
    Some(&line.program)
}

fn draw_line(draws: &[DrawLine], window: u16, view: u16) -> Option<&DrawLine>
    ensures { option_map (λ line. line.now) result
        ≡ find (λ line. line.window == window && line.view == view) draws.now }
{
    draws.iter().find(|line| is_draw_in(line, window, view))
}

// It is declared in this window, of this view.
fn is_draw_in(line: &DrawLine, window: u16, view: u16) -> bool
    ensures { result ≡ (line.now.window == window && line.now.view == view) }
{
    line.window == window && line.view == view
}

/// The instruction at this step of the Draw bodies of these views, one after the other. None behind
/// the last.
pub fn update_step<'a>(
    script: &'a Script,
    window: u16,
    views: &[(u16, Rect)],
    step: u32,
) -> Option<&'a Instruction>
    ensures { option_map (λ step. step.now) result
        ≡ slice_get
        (update_program (declared_by script.now) window (map (λ v. v.0) views.now)) step }
{
    let mut left = step as usize;
    for (view, _) in views {
        let Some(program) = draw_of(script, window, *view) else {
            continue;
        };
        if left < program.steps.len() {
            return Some(&program.steps[left]);
        }
        left -= program.steps.len();
    }
    None
}
