ghost use Rattle.std.specs.Prelude.{◌≡◌, count_by};
ghost use Rattle.be_summary.specs.Summary.{is_exec, is_take};

use be_machine::{Act, Entry};

/// How many entries there are of two kinds.
#[derive(Clone, Copy)]
pub(crate) struct Kinds {
    pub(crate) execs: u64,
    pub(crate) takes: u64,
}

pub(crate) fn count_kinds(history: &[Entry]) -> Kinds
    ensures execs { result.execs ≡ count_by (λ e. is_exec e.act) history.now }
    ensures takes { result.takes ≡ count_by (λ e. is_take e.act) history.now }
{
    let mut kinds = Kinds { execs: 0, takes: 0 };
    for entry in history {
        if is_exec(&entry.act) {
            kinds.execs += 1;
        }
        if is_take(&entry.act) {
            kinds.takes += 1;
        }
    }
    kinds
}

fn is_exec(act: &Act) -> bool
    ensures { result ≡ is_exec act.now }
{
    matches!(act, Act::Exec(_, _))
}

fn is_take(act: &Act) -> bool
    ensures { result ≡ is_take act.now }
{
    matches!(act, Act::Take(_))
}
