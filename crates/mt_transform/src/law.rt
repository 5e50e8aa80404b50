//! Laws of the definitions.
ghost use Rattle.std.specs.Prelude.{◌≡◌, ◌≤◌, ◌++◌, ℕ, [], Bool, IsUtf8, List, Ok, length};
ghost use Rattle.mt_tokens.specs.Deps.{Deps, deps_of};
ghost use Rattle.mt_tokens.specs.Tokens.{Covers};
ghost use Rattle.mt_tokens.specs.Transform.{Transformed, body_of, comment_edits, end_text, max_dependencies, start_text, transformed};
ghost use Rattle.mt_tokens.specs.declared.source.PathKind.{PathKind};
ghost use Rattle.mt_tokens.specs.declared.token.Token.{Token};
ghost use Rattle.mt_transform.specs.Outputs.{IsSure, places_of};
ghost use Rattle.mt_transform.specs.Ranges.{replaced};
ghost use Rattle.mt_transform.specs.declared.output.Output.{Output};

/// Does nothing, and carries a law: the body that a source becomes is UTF-8, and it has at most 4,096 dependencies. An
/// output that is what its source becomes has a place in it for each name. Where no comment is left out, each range that a
/// dependency or an export replaces is replaced in the body, and where there is no such range, each comment that is left out.
pub fn law_of_bodies()
    ensures utf8 { (strip : Bool) (kind : PathKind) (source : List ℕ) (t : Transformed) → transformed strip kind source ≡ Ok t → IsUtf8 t.body }
    ensures few { (strip : Bool) (kind : PathKind) (source : List ℕ) (t : Transformed) → transformed strip kind source ≡ Ok t → length t.dependencies ≤ max_dependencies }
    ensures places { (o : Output) → IsSure o → length (places_of o) ≡ length o.names }
    ensures ranges { (strip : Bool) (text : List ℕ) (ts : List Token) (found : Deps) → Covers 0 (length text) ts → deps_of text ts ≡ Ok found
        → comment_edits strip text ts ≡ [] → body_of strip text ts found ≡ start_text found.exporting ++ replaced text 0 found.uses ++ end_text found.marks }
    ensures comments { (strip : Bool) (text : List ℕ) (ts : List Token) (found : Deps) → Covers 0 (length text) ts → found.uses ≡ []
        → body_of strip text ts found ≡ start_text found.exporting ++ replaced text 0 (comment_edits strip text ts) ++ end_text found.marks }
{}
