//! An activity's entry is carried out.
ghost use Rattle.std.specs.Prelude.{◌≡◌};
ghost use Rattle.be_script.specs.Script.{declared_by};
ghost use Rattle.be_steps.specs.Steps.{IsAllowed, IsDone};
ghost use Rattle.be_world.specs.Suits.{IsPrepared, IsSuited, MayStep};

use crate::asked::give;
use crate::executing::run;
use crate::input::use_line;
use crate::work::Work;
use be_asking::{Activity, Want, Wanted, wanted};
use be_bitmap::Bitmap;
use be_hall::Held;
use be_parts::Part;
use be_script::Script;
use be_steps::{begin, end, flush, notify, put_end, stop, take};
use std::alloc::Global;

/// What the activity of this number wants is met, with what was made for that. The bitmaps are the
/// script's. It asks once more what is wanted, and takes no memory.
pub(crate) fn carry_out(
    alloc: Global,
    script: &Script,
    bitmaps: &[Bitmap],
    held: &mut Held<Part>,
    number: u32,
    who: Activity,
    made: Work,
)
    requires may { MayStep (declared_by script.now) held.old.parts number who }
    requires prepared { IsPrepared (declared_by script.now) held.old.parts number made }
    requires bitmaps { bitmaps.now ≡ (declared_by script.now).pictures }
    ensures { IsDone (declared_by script.now) who held.old held.new }
{
    match wanted(script, held, number, who) {
        Wanted::Wants(want) => meet(alloc, script, bitmaps, held, who, want, made),
        Wanted::Needs(_) => unreachable!(),
        Wanted::Nothing => unreachable!(),
    }
}

fn meet(
    alloc: Global,
    script: &Script,
    bitmaps: &[Bitmap],
    held: &mut Held<Part>,
    who: Activity,
    want: Want,
    made: Work,
)
    requires allowed { IsAllowed (declared_by script.now) held.old.parts who want }
    requires suits { IsSuited (declared_by script.now) held.old.parts who want made }
    requires bitmaps { bitmaps.now ≡ (declared_by script.now).pictures }
    ensures { IsDone (declared_by script.now) who held.old held.new }
{
    let _who = who;
    match want {
        Want::Asks(runner, request) => give(script, held, runner, request, made),
        Want::Takes(w) => {
            let (message, route) = made.into_taken();
            take(script, held, w, message, route);
        }
        Want::Begins(w) => begin(script, held, w, made.into_survey()),
        Want::Flushes(w) => flush(script, held, w),
        Want::DrawsEnd(w) => put_end(script, held, w),
        Want::Ends(w) => end(alloc, script, held, w),
        Want::Notifies(w) => notify(script, held, w, made.into_letter()),
        Want::Executes(w) => run(script, bitmaps, held, w, made),
        Want::Uses(line) => use_line(script, held, line, made),
        Want::Stops => stop(script, held),
    }
}
