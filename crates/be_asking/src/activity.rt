ghost use Rattle.std.specs.Prelude.{◌≡◌, option_map};
ghost use Rattle.be_asking.specs.Wants.{activity_in};
ghost use Rattle.be_machine.specs.Activities as machine;
ghost use Rattle.be_script.specs.Limits.{IsWithinLimits};
ghost use Rattle.be_script.specs.Script.{declared_by};

use be_script::Script;

/// Who runs instructions: an application, or the looper of a window.
#[derive(Clone, Copy, Debug, PartialEq, Eq)]
pub enum Runner {
    App(u16),
    Looper(u16),
}

/// Who makes entries.
#[derive(Clone, Copy, Debug, PartialEq, Eq)]
pub enum Activity {
    Runner(Runner),
    Twin(u16),
    Input,
    Closing,
}

/// The activity of a number. None past the last.
pub fn activity_of(script: &Script, number: u32) -> Option<Activity>
    requires { IsWithinLimits (declared_by script.now) }
    ensures { option_map activity_in result ≡ machine.activity_of (declared_by script.now) number }
{
    let apps = script.apps.len() as u32;
    let windows = script.windows.len() as u32;
    if number < apps {
        return Some(Activity::Runner(Runner::App(number as u16)));
    }
    let rest = number - apps;
    if rest < 2 * windows {
        let window = (rest / 2) as u16;
        return Some(if rest % 2 == 0 {
            Activity::Runner(Runner::Looper(window))
        } else {
            Activity::Twin(window)
        });
    }
    let past = rest - 2 * windows;
    if past == 0 {
        return Some(Activity::Input);
    }
    if past == 1 {
        return Some(Activity::Closing);
    }
    None
}
