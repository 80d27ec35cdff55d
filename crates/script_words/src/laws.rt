//! What is printed is read again, as laws.

ghost use Rattle.std.specs.Prelude.{◌≡◌, ℕ, ℤ, ◌<◌, ◌≤◌, ◌≤ℤ◌, ◌+◌, ◌*◌, ◌^◌, ◌++◌, ◌∷◌, [], List, Some, IsTrue, length, decimal, sum_by, unsigned_abs};
ghost use Rattle.std.specs.Fmt.{signed_decimal};
ghost use Rattle.std.specs.List.{list_all};
ghost use Rattle.plane_rect.specs.Name.{is_name};
ghost use Rattle.outside_io.specs.FileName.{is_file_name};
ghost use Rattle.script_words.specs.Lines.{is_line, is_text, lines_of, text_of};
ghost use Rattle.script_words.specs.Numbers.{integer_in, natural_in};
ghost use Rattle.script_words.specs.Words.{is_word, joined, words_of};

/// States that a text is read as the lines that it was made of, where each can be read before a line feed.
pub fn lines_read_again()
    ensures first { (line rest : List ℕ) → IsTrue (is_line line)
        → lines_of (line ++ 10 ∷ rest) ≡ line ∷ lines_of rest }
    ensures all { (lines : List (List ℕ)) → IsTrue (list_all is_line lines)
        → lines_of (text_of lines) ≡ lines }
{}

/// States that a line of text bytes alone can be read before a line feed.
pub fn text_is_line()
    ensures { (line : List ℕ) → IsTrue (is_text line) → IsTrue (is_line line) }
{}

/// States that words that are separated by single spaces are read as they were.
pub fn words_read_again()
    ensures { (words : List (List ℕ)) → IsTrue (list_all is_word words)
        → words_of (joined words) ≡ words }
{}

/// States that words that are separated by single spaces have only text bytes.
pub fn joined_words_are_text()
    ensures { (words : List (List ℕ)) → IsTrue (list_all is_word words)
        → IsTrue (is_text (joined words)) }
{}

/// States that the words of a line of a text are words of a text.
pub fn words_of_text()
    ensures { (line : List ℕ) → IsTrue (is_text line) → IsTrue (list_all is_word (words_of line)) }
{}

/// States that words that are separated by single spaces are as long as they are together, and a space more for
/// each but one.
pub fn length_of_joined()
    ensures { (word : List ℕ) (words : List (List ℕ))
        → length (joined (word ∷ words)) ≡ length word + sum_by (λ other. length other + 1) words }
{}

/// States that the digits of a number of a range are read as the number.
pub fn natural_read_again()
    ensures { (low high value : ℕ) → low ≤ value → value ≤ high → value < 10 ^ 10
        → natural_in low high (decimal value) ≡ Some value }
{}

/// States that the printed form of an integer of a range is read as the integer.
pub fn integer_read_again()
    ensures { (low high value : ℤ) → low ≤ℤ value → value ≤ℤ high
        → unsigned_abs value < 10 ^ 10
        → integer_in low high (signed_decimal value) ≡ Some value }
{}

/// States that the digits of a number are a word, of at most 10 bytes.
pub fn natural_is_word()
    ensures word { (value : ℕ) → value < 10 ^ 10 → IsTrue (is_word (decimal value)) }
    ensures short { (value : ℕ) → value < 10 ^ 10 → length (decimal value) ≤ 10 }
{}

/// States that the printed form of an integer is a word, of at most 11 bytes.
pub fn integer_is_word()
    ensures word { (value : ℤ) → unsigned_abs value < 10 ^ 10 → IsTrue (is_word (signed_decimal value)) }
    ensures short { (value : ℤ) → unsigned_abs value < 10 ^ 10 → length (signed_decimal value) ≤ 11 }
{}

/// States that a name of a file is a word, of at most 64 bytes.
pub fn file_name_is_word()
    ensures word { (name : List ℕ) → IsTrue (is_file_name name) → IsTrue (is_word name) }
    ensures short { (name : List ℕ) → IsTrue (is_file_name name) → length name ≤ 64 }
{}

/// States that a name of a buffer or a node is a word, of at most 16 bytes.
pub fn name_is_word()
    ensures word { (name : List ℕ) → IsTrue (is_name name) → IsTrue (is_word name) }
    ensures short { (name : List ℕ) → IsTrue (is_name name) → length name ≤ 16 }
{}
