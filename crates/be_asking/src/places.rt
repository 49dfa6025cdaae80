//! Where parts lie: the desk first, the input, then each application's, and each window's by kind.
ghost use Rattle.std.specs.Prelude.{◌≡◌, ◌≤◌, ◌+◌, ◌*◌, length};
ghost use Rattle.be_machine.specs.Touched as part;
ghost use Rattle.be_rules.specs.Places.{place_of};
ghost use Rattle.be_script.specs.Limits.{IsWithinLimits};
ghost use Rattle.be_script.specs.Script.{Declared, declared_by};

use be_script::Script;

/// The place of the desk.
pub fn desk_place() -> u32
    ensures { (d : Declared) → result ≡ place_of d part.desk }
{
    0
}

/// The place of the input.
pub fn input_place() -> u32
    ensures { (d : Declared) → result ≡ place_of d part.input }
{
    1
}

/// The place of the cell of an application, counted from 0.
pub fn cell_place(app: u16) -> u32
    ensures { (d : Declared) → result ≡ place_of d (part.cell app) }
{
    2 + app as u32
}

/// The place of the looper of a window, counted from 0.
pub fn looper_place(script: &Script, window: u16) -> u32
    requires { IsWithinLimits (declared_by script.now) }
    ensures { result ≡ place_of (declared_by script.now) (part.looper window) }
{
    window_place(script, 0, window)
}

/// The place of a window's port.
pub fn port_place(script: &Script, window: u16) -> u32
    requires { IsWithinLimits (declared_by script.now) }
    ensures { result ≡ place_of (declared_by script.now) (part.port window) }
{
    window_place(script, 1, window)
}

/// The place of the link between a window and its server twin.
pub fn link_place(script: &Script, window: u16) -> u32
    requires { IsWithinLimits (declared_by script.now) }
    ensures { result ≡ place_of (declared_by script.now) (part.link window) }
{
    window_place(script, 2, window)
}

/// The place of a window's pane.
pub fn pane_place(script: &Script, window: u16) -> u32
    requires { IsWithinLimits (declared_by script.now) }
    ensures { result ≡ place_of (declared_by script.now) (part.pane window) }
{
    window_place(script, 3, window)
}

// Behind so many rows of windows' parts.
fn window_place(script: &Script, rows: u32, window: u16) -> u32
    requires limits { IsWithinLimits (declared_by script.now) }
    requires rows { rows ≤ 3 }
    ensures { result ≡ 2 + (length (declared_by script.now).apps
        + (rows * length (declared_by script.now).windows + window)) }
{
    2 + (script.apps.len() as u32 + (rows * script.windows.len() as u32 + window as u32))
}
