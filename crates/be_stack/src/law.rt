ghost use Rattle.be_stack.specs.Laws.{OrderStaysWhole, ActiveStaysShown};

/// Where the order had each open window once and no other, it has so after any change that isn't
/// refused.
pub fn order_stays_whole()
    ensures { OrderStaysWhole }
{}

/// Where the active window was shown, it is so after any change that isn't refused.
pub fn active_stays_shown()
    ensures { ActiveStaysShown }
{}
