ghost use Rattle.std.specs.Prelude.{◌≡◌, ◌≢◌, ◌+◌, ◌<◌, ◌++◌, ◌∷◌, [], ℕ, List, length, take, Err};
ghost use Rattle.be_message.specs.Messages.{Message};
ghost use Rattle.be_flat.specs.declared.fault.FlatError.TheVariants.{Truncated, BadByte, Extra};
ghost use Rattle.be_flat.specs.Grammar.{Spells};
ghost use Rattle.be_flat.specs.Reading.{reading};

/// A message has one spelling.
pub fn each_message_has_one_spelling()
    ensures { (a b : List ℕ) (m : Message) → Spells a m → Spells b m → a ≡ b }
{}

/// No spelling begins another one: where a message ends needs no mark.
pub fn no_spelling_begins_another()
    ensures { (a b x y : List ℕ) (m n : Message) → Spells a m → Spells b n → a ++ x ≡ b ++ y
        → (a ≡ b) × (m ≡ n) }
{}

/// A spelling that is cut short is truncated, and at its end.
pub fn every_front_is_truncated()
    ensures { (front back : List ℕ) (m : Message) → Spells (front ++ back) m → back ≢ []
        → reading front ≡ Err (Truncated (length front)) }
{}

/// What stands behind a spelling is extra, from its first byte on.
pub fn what_follows_is_extra()
    ensures { (bytes more : List ℕ) (m : Message) → Spells bytes m → more ≢ []
        → reading (bytes ++ more) ≡ Err (Extra (length bytes)) }
{}

/// Bytes that are cut before a bad byte are truncated, and at their end: up to there nothing was
/// bad.
pub fn bytes_before_a_bad_one_are_truncated()
    ensures there { (bytes : List ℕ) (at : ℕ) → reading bytes ≡ Err (BadByte at)
        → at < length bytes }
    ensures cut { (bytes : List ℕ) (at : ℕ) → reading bytes ≡ Err (BadByte at)
        → reading (take at bytes) ≡ Err (Truncated at) }
{}

/// A bad byte is bad whatever follows it, so that the bytes up to it begin no spelling.
pub fn a_bad_byte_begins_no_spelling()
    ensures stays { (bytes more : List ℕ) (at : ℕ) → reading bytes ≡ Err (BadByte at)
        → reading (take (at + 1) bytes ++ more) ≡ Err (BadByte at) }
    ensures none { (bytes more : List ℕ) (at : ℕ) (m : Message) → reading bytes ≡ Err (BadByte at)
        → ¬ Spells (take (at + 1) bytes ++ more) m }
{}
