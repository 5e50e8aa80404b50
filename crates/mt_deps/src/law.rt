//! Laws of the definitions.
ghost use Rattle.std.specs.Prelude.{◌≡◌, ◌<◌, ◌^◌, ℕ, IsUtf8, List, Ok, All, length};
ghost use Rattle.mt_tokens.specs.Deps.{Deps, deps_of};
ghost use Rattle.mt_tokens.specs.Tokens.{Covers, IsCut};
ghost use Rattle.mt_tokens.specs.declared.token.Token.{Token};
ghost use Rattle.mt_deps.specs.Uses.{AreApart, IsMarkText, IsUseCut};

/// Does nothing, and carries a law: where the tokens are those of the text, the ranges that are replaced ascend, and none
/// overlaps the next. In UTF-8 each begins and ends between characters, and what takes its place is UTF-8, as are the names
/// that are exported.
pub fn law_of_uses()
    ensures apart { (text : List ℕ) (ts : List Token) (found : Deps) → Covers 0 (length text) ts → deps_of text ts ≡ Ok found → AreApart 0 found.uses }
    ensures cut { (text : List ℕ) (ts : List Token) (found : Deps) → IsUtf8 text → All (IsCut text) ts → deps_of text ts ≡ Ok found → length found.deps < 2 ^ 64 → All (IsUseCut text) found.uses }
    ensures marks { (text : List ℕ) (ts : List Token) (found : Deps) → IsUtf8 text → All (IsCut text) ts → deps_of text ts ≡ Ok found → All IsMarkText found.marks }
{}
