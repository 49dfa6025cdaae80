ghost use Rattle.std.specs.Prelude.{◌≡◌, ◌||◌, ◌++◌, ◌∷◌, [], true, IfOk, List};
ghost use Rattle.be_actor.specs.Drafts.{Word};
ghost use Rattle.be_message.specs.Kinds.{is_kind};
ghost use Rattle.be_line.specs.Shaped.{seen_word};
ghost use Rattle.be_line.specs.Standing.{IsStanding, kind_under};
ghost use Rattle.be_line.specs.Words.{fits, goes_with, is_free, name_of};

use crate::shaped::ShapedWord;
use be_geom::NoMemory;
use be_message::Kind;
use std::alloc::Global;
use std::collections::BTreeMap;

/// What stands under the names of FIELDS so far.
#[derive(Drop)]
pub(crate) struct Standing<'a> {
    /// The type of the values under each name. None where the current message or a copy is.
    kinds: BTreeMap<&'a [u8], Option<Kind>>,
    has_current: bool,
    has_copy: bool,
}

impl<'a> Standing<'a> {
    pub(crate) fn nothing(alloc: Global) -> Standing<'a>
        ensures { IsStanding [] result }
    {
        Standing {
            kinds: BTreeMap::new(alloc),
            has_current: false,
            has_copy: false,
        }
    }

    /// Takes a word in, and says whether it goes with those that stand. Where it doesn't, nothing
    /// is said of what stands from then on.
    pub(crate) fn take(&mut self, word: &ShapedWord<'a>) -> Result<bool, NoMemory>
        ensures goes { IfOk result
            (λ goes. goes ≡ goes_with (kind_under self.old (name_of (seen_word word.now)))
            self.old.has_current self.old.has_copy (seen_word word.now)) }
        ensures stands { IfOk result
            (λ goes. goes ≡ true → (ws : List Word) → IsStanding ws self.old
            → IsStanding (ws ++ seen_word word.now ∷ []) self.new) }
    {
        let there = self.kinds.insert(word.name(), word.sort())?;
        let goes = self.goes_with(there, word);
        self.mark(word.is_current(), word.is_copied());
        Ok(goes)
    }

    /// Whether a word goes with those that stand, where this stood under its name.
    fn goes_with(&self, there: Option<Option<Kind>>, word: &ShapedWord<'a>) -> bool
        ensures { result ≡ goes_with there self.now.has_current self.now.has_copy
            (seen_word word.now) }
    {
        match word {
            ShapedWord::Value(_, value) => fits(there, value.kind()),
            ShapedWord::Current(_) => !self.has_current && (!self.has_copy && is_free(there)),
            ShapedWord::Copied(_) => !self.has_current && is_free(there),
        }
    }

    fn mark(&mut self, is_current: bool, is_copied: bool)
        ensures kinds { self.new.kinds ≡ self.old.kinds }
        ensures current { self.new.has_current ≡ (self.old.has_current || is_current) }
        ensures copies { self.new.has_copy ≡ (self.old.has_copy || is_copied) }
    {
        self.has_current = self.has_current || is_current;
        self.has_copy = self.has_copy || is_copied;
    }
}

/// Whether values of the type may stand beside this.
fn fits(there: Option<Option<Kind>>, kind: Kind) -> bool
    ensures { result ≡ fits there kind }
{
    match there {
        None => true,
        Some(Some(other)) => is_kind(other, kind),
        Some(None) => false,
    }
}

/// Whether nothing stands there.
fn is_free(there: Option<Option<Kind>>) -> bool
    ensures { result ≡ is_free there }
{
    there.is_none()
}

fn is_kind(one: Kind, other: Kind) -> bool
    ensures { result ≡ is_kind one other }
{
    one == other
}
