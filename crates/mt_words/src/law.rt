//! Laws of the definitions that contracts cite, on a function that does nothing.
ghost use Rattle.std.specs.Prelude.{◌≡◌, ◌≤◌, ◌<◌, ◌+◌, ◌++◌, ◌^◌, ℕ, List, length, Ok, Err, Some};
ghost use Rattle.std.specs.Fmt.{decimal};
ghost use Rattle.mt_words.specs.Entries.{entry_of, rooted};
ghost use Rattle.mt_words.specs.Lines.{IsFront, IsLine};
ghost use Rattle.mt_words.specs.Values.{number_of};
ghost use Rattle.mt_words.specs.Words.{line_of};
ghost use Rattle.mt_words.specs.declared.table.CommandSet.{CommandSet};
ghost use Rattle.mt_words.specs.declared.words.Words.{Words};

/// Does nothing, and carries the laws of command lines. What is read is a line that says it: its parts spell the words,
/// each option is the command's and has a value in form, none comes twice, and the positionals are as many as they may be.
/// Each line is read. The first bad word is the first with which no line begins: a line begins with the words before it,
/// and none with these and it. A number is its decimal text, and an entry its word with `/` before it.
pub fn law_of_words()
    ensures line { (set : CommandSet) (line : List (List ℕ)) (words : Words) → line_of set line ≡ Ok words → IsLine set line words }
    ensures read { (set : CommandSet) (line : List (List ℕ)) (words : Words) → IsLine set line words → line_of set line ≡ Ok words }
    ensures front { (set : CommandSet) (front back : List (List ℕ)) (n : ℕ) → line_of set (front ++ back) ≡ Err n → length front < n → IsFront set front }
    ensures bad { (set : CommandSet) (front back : List (List ℕ)) (n : ℕ) → line_of set (front ++ back) ≡ Err n → n ≤ length front → ¬ IsFront set front }
    ensures least { (set : CommandSet) (line : List (List ℕ)) (n : ℕ) → line_of set line ≡ Err n → 1 ≤ n }
    ensures most { (set : CommandSet) (line : List (List ℕ)) (n : ℕ) → line_of set line ≡ Err n → n ≤ length line + 1 }
    ensures decimal { (n : ℕ) → n < 2 ^ 64 → number_of (decimal n) ≡ Some n }
    ensures number { (text : List ℕ) (n : ℕ) → number_of text ≡ Some n → decimal n ≡ text }
    ensures small { (text : List ℕ) (n : ℕ) → number_of text ≡ Some n → n < 2 ^ 64 }
    ensures entry { (word path : List ℕ) → entry_of word ≡ Some path → path ≡ rooted word }
{}
