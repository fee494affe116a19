//! What holds of the definitions alone: that a word which is printed is read again.

ghost use Rattle.std.specs.Prelude.{◌≡◌, ℕ, ℤ, pos, neg_ℤ, ◌+◌, ◌<◌, List, [], ◌∷◌, ◌++◌, length, slice_index, false, Some, Ok};
ghost use Rattle.std.specs.Char.{is_ascii_digit};
ghost use Rattle.std.specs.List.{AllByRecursion};
ghost use Rattle.std.specs.Str.Parse.{digits_value};
ghost use Rattle.sql_words.specs.declared.word.WordClass.{WordClass};
ghost use Rattle.sql_words.specs.declared.word.WordClass.TheVariants.{Text, Bytes, Number};
ghost use Rattle.sql_words.specs.declared.front.Front.TheVariants.{Found};
ghost use Rattle.sql_words.specs.Characters.{begins_with};
ghost use Rattle.sql_words.specs.Front.{front_at};
ghost use Rattle.sql_words.specs.Readings.{with_word, words_after, words_of};
ghost use Rattle.sql_words.specs.Meanings.{text_value, bytes_value, number_value, AreDigits};
ghost use Rattle.sql_words.specs.Printed.{printed_text, printed_bytes};

/// What is at the front is the first word, and the others are those of what follows it.
pub fn words_follow_one_another()
    ensures { (class : WordClass) (place : ℕ) (word rest : List ℕ) → 0 < length word → front_at place (word ++ rest) ≡ Ok (Found class (length word)) → words_after 0 place (word ++ rest) ≡ with_word (record { class = class; text = word; place = place }) (words_after 0 (place + length word) rest) }
{}

/// A text between quotes with its escapes is one word, which stands for that text.
pub fn printed_texts_are_read()
    ensures front { (place : ℕ) (value rest : List ℕ) → begins_with 39 rest ≡ false → front_at place (printed_text value ++ rest) ≡ Ok (Found Text (length (printed_text value))) }
    ensures word { (value : List ℕ) → words_of (printed_text value) ≡ Ok (record { class = Text; text = printed_text value; place = 0 } ∷ []) }
    ensures value { (value : List ℕ) → text_value (printed_text value) ≡ Some value }
{}

/// Bytes as pairs of digits are one word, which stands for those bytes.
pub fn printed_bytes_are_read()
    ensures front { (place : ℕ) (value rest : List ℕ) → AllByRecursion (λ b. b < 256) value → front_at place (printed_bytes value ++ rest) ≡ Ok (Found Bytes (length (printed_bytes value))) }
    ensures word { (value : List ℕ) → AllByRecursion (λ b. b < 256) value → words_of (printed_bytes value) ≡ Ok (record { class = Bytes; text = printed_bytes value; place = 0 } ∷ []) }
    ensures value { (value : List ℕ) → AllByRecursion (λ b. b < 256) value → bytes_value (printed_bytes value) ≡ Some value }
{}

/// A sign and 1 to 38 digits, or such digits alone, are one word, which stands for the number that they spell.
pub fn numbers_are_read()
    ensures front { (place : ℕ) (bytes rest : List ℕ) (number : ℤ) → number_value bytes ≡ Some number → is_ascii_digit (slice_index rest 0) ≡ false → front_at place (bytes ++ rest) ≡ Ok (Found Number (length bytes)) }
    ensures word { (bytes : List ℕ) (number : ℤ) → number_value bytes ≡ Some number → words_of bytes ≡ Ok (record { class = Number; text = bytes; place = 0 } ∷ []) }
    ensures unsigned { (digits : List ℕ) → AreDigits digits → number_value digits ≡ Some (pos (digits_value 10 digits)) }
    ensures after_plus { (digits : List ℕ) → AreDigits digits → number_value (43 ∷ digits) ≡ Some (pos (digits_value 10 digits)) }
    ensures after_minus { (digits : List ℕ) → AreDigits digits → number_value (45 ∷ digits) ≡ Some (neg_ℤ (pos (digits_value 10 digits))) }
{}
