ghost use Rattle.std.specs.Prelude.{◌≡◌, ℕ, OnOk, None};
ghost use Rattle.be_script.specs.BodyNumbers.{number_of, HasNew};
ghost use Rattle.be_message.specs.declared.target.Target.{Target};

use be_geom::NoMemory;
use be_message::Target;
use std::alloc::Global;
use std::collections::BTreeMap;

/// The number of each body by its window, its handler and its word. A look-up costs the logarithm
/// of their count.
#[derive(Drop)]
pub(crate) struct BodyNumbers {
    of_windows: BTreeMap<(u16, u32), usize>,
    of_views: BTreeMap<(u16, u16, u32), usize>,
    of_plains: BTreeMap<(u16, u16, u32), usize>,
}

impl BodyNumbers {
    pub(crate) fn new(alloc: Global) -> BodyNumbers
        ensures { (w : ℕ) (target : Target) (what : ℕ) → number_of result w target what ≡ None }
    {
        BodyNumbers {
            of_windows: BTreeMap::new(alloc),
            of_views: BTreeMap::new(alloc),
            of_plains: BTreeMap::new(alloc),
        }
    }

    pub(crate) fn get(&self, window: u16, target: Target, what: u32) -> Option<usize>
        ensures { result ≡ number_of self.now window target what }
    {
        match target {
            Target::Window => self.of_windows.get(&(window, what)).copied(),
            Target::View(view) => self.of_views.get(&(window, view, what)).copied(),
            Target::Plain(plain) => self.of_plains.get(&(window, plain, what)).copied(),
        }
    }

    pub(crate) fn insert(
        &mut self,
        window: u16,
        target: Target,
        what: u32,
        number: usize,
    ) -> Result<(), NoMemory>
        ensures { OnOk result (HasNew self.old self.new window target what number) }
    {
        match target {
            Target::Window => {
                self.of_windows.insert((window, what), number)?;
            }
            Target::View(view) => {
                self.of_views.insert((window, view, what), number)?;
            }
            Target::Plain(plain) => {
                self.of_plains.insert((window, plain, what), number)?;
            }
        }
        Ok(())
    }
}
