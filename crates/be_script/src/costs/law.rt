ghost use Rattle.be_script.specs.Limits.{IsWithinLimits};
ghost use Rattle.be_script.specs.Routable.{IsRoutable};
ghost use Rattle.be_script.specs.Script.{declared_by};

use crate::Script;

/// A script that keeps its limits is one whose work can be told.
pub fn limits_make_routable(script: &Script)
    requires { IsWithinLimits (declared_by script.now) }
    ensures { IsRoutable (declared_by script.now) }
{}
