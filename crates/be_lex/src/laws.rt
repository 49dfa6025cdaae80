ghost use Rattle.std.specs.Prelude.{◌≡◌, ◌≢◌, [], true, false, ◌∷◌, ◌++◌, ◌<◌, ◌^◌, ℕ, ℤ, List};
ghost use Rattle.std.specs.Prelude.{Some, IsTrue, unsigned_abs};
ghost use Rattle.std.specs.Fmt.{signed_decimal};
ghost use Rattle.be_color.specs.declared.colors.Color.{Color};
ghost use Rattle.be_color.specs.declared.modes.Mode.{Mode};
ghost use Rattle.be_color.specs.declared.patterns.Pattern.{Pattern};
ghost use Rattle.be_lex.specs.Lines.{lines_of, is_line};
ghost use Rattle.be_lex.specs.Words.{words_of, is_word, behind_word, ends_word};
ghost use Rattle.be_lex.specs.Numbers.{is_number, number_of};
ghost use Rattle.be_lex.specs.Names.{is_name_within};
ghost use Rattle.be_lex.specs.Colors.{color_of, color_text, is_color};
ghost use Rattle.be_lex.specs.Patterns.{pattern_of, pattern_text, is_pattern};
ghost use Rattle.be_lex.specs.Modes.{mode_of, mode_text};
ghost use Rattle.be_lex.specs.Codes.{code_of, code_text};

/// Bytes without a line feed are a line, with a line feed behind them or as the last.
pub fn a_line_in_front_is_read()
    ensures ended { (line rest : List ℕ) → IsTrue (is_line line)
        → lines_of (line ++ 10 ∷ rest) ≡ record { bytes = line; ended = true } ∷ lines_of rest }
    ensures last { (line : List ℕ) → IsTrue (is_line line) → line ≢ []
        → lines_of line ≡ record { bytes = line; ended = false } ∷ [] }
    ensures none { lines_of [] ≡ [] }
{}

/// A word that stands in front of a text is its first word, and what stands behind is left.
pub fn a_word_in_front_is_read()
    ensures words { (word rest : List ℕ) → IsTrue (is_word word) → IsTrue (ends_word rest)
        → words_of (word ++ rest) ≡ word ∷ words_of rest }
    ensures behind { (word rest : List ℕ) → IsTrue (is_word word) → IsTrue (ends_word rest)
        → behind_word (word ++ rest) ≡ rest }
{}

/// Spaces before a word say nothing.
pub fn a_space_in_front_is_passed_over()
    ensures words { (rest : List ℕ) → words_of (32 ∷ rest) ≡ words_of rest }
    ensures behind { (rest : List ℕ) → behind_word (32 ∷ rest) ≡ behind_word rest }
{}

/// A name is one word.
pub fn a_name_is_a_word()
    ensures { (most : ℕ) (word : List ℕ) → IsTrue (is_name_within most word)
        → IsTrue (is_word word) }
{}

/// A number is read back from what is written of it, which is one word.
pub fn a_number_is_read_back()
    ensures form { (number : ℤ) → unsigned_abs number < 2 ^ 64
        → IsTrue (is_number (signed_decimal number)) }
    ensures value { (number : ℤ) → unsigned_abs number < 2 ^ 64
        → number_of (signed_decimal number) ≡ number }
    ensures word { (number : ℤ) → unsigned_abs number < 2 ^ 64
        → IsTrue (is_word (signed_decimal number)) }
{}

/// No other word is that number.
pub fn a_number_has_one_word()
    ensures { (word : List ℕ) → IsTrue (is_number word) → unsigned_abs (number_of word) < 2 ^ 64
        → signed_decimal (number_of word) ≡ word }
{}

/// A colour is read back from its word.
pub fn a_color_is_read_back()
    ensures value { (color : Color) → IsTrue (is_color color)
        → color_of (color_text color) ≡ Some color }
    ensures word { (color : Color) → IsTrue (is_color color) → IsTrue (is_word (color_text color)) }
{}

/// No other word is that colour.
pub fn a_color_has_one_word()
    ensures { (word : List ℕ) (color : Color) → color_of word ≡ Some color
        → color_text color ≡ word }
{}

/// A pattern is read back from its canonical word.
pub fn a_pattern_is_read_back()
    ensures value { (pattern : Pattern) → IsTrue (is_pattern pattern)
        → pattern_of (pattern_text pattern) ≡ Some pattern }
    ensures word { (pattern : Pattern) → IsTrue (is_pattern pattern)
        → IsTrue (is_word (pattern_text pattern)) }
{}

/// A mode is read back from its word.
pub fn a_mode_is_read_back()
    ensures value { (mode : Mode) → mode_of (mode_text mode) ≡ Some mode }
    ensures word { (mode : Mode) → IsTrue (is_word (mode_text mode)) }
{}

/// No other word is that mode.
pub fn a_mode_has_one_word()
    ensures { (word : List ℕ) (mode : Mode) → mode_of word ≡ Some mode → mode_text mode ≡ word }
{}

/// A code is written as the word that it was read from.
pub fn a_code_has_one_word()
    ensures { (word : List ℕ) (code : ℕ) → code_of word ≡ Some code → code_text code ≡ word }
{}
