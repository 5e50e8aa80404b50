//! Laws of what command lines ask for, on a function that does nothing.
ghost use Rattle.std.specs.Prelude.{◌≡◌, [], ◌∷◌, ℕ, List, map, true, false, Some, None, Ok, Err, codes};
ghost use Rattle.std.specs.Str.{bytes_eq};
ghost use Rattle.mt_package.specs.Options.{standard_options};
ghost use Rattle.mt_request.specs.Asks.{grown_ask};
ghost use Rattle.mt_request.specs.Requests.{request_in, request_of};
ghost use Rattle.mt_request.specs.declared.fault.WordFault.{WordFault};
ghost use Rattle.mt_request.specs.declared.growth.Action.{Action};
ghost use Rattle.mt_words.specs.Entries.{rooted};
ghost use Rattle.mt_words.specs.Words.{words_of};
ghost use Rattle.mt_words.specs.declared.table.CommandSet.{CommandSet};
ghost use Rattle.mt_words.specs.declared.words.Words.{Words};
ghost use Rattle.mt_words.specs.declared.words.WordsFault.{WordsFault};

/// Does nothing, and carries the laws of requests. A line that the reader of words accepts asks for something, and one
/// that it refuses is refused with the same number. Each word that names an entry gives one, and no entry is lost. The
/// other clauses are worked rows.
pub fn law_of_requests()
    ensures accepted { (line : List (List ℕ)) (words : Words) → words_of CommandSet.Still line ≡ Ok words → request_of line ≡ Ok (request_in words) }
    ensures refused { (line : List (List ℕ)) (at : ℕ) → words_of CommandSet.Still line ≡ Err (WordsFault.Bad at) → request_of line ≡ Err (WordFault.BadWord at) }
    ensures entries { (line : List (List ℕ)) (words : Words) → words_of CommandSet.Still line ≡ Ok words
        → bytes_eq words.command (codes "grow") ≡ false → (request_in words).ask.entries ≡ map rooted words.positionals }
    ensures no_word { request_of [] ≡ Err (WordFault.BadWord 1) }
    ensures no_entry { request_of (codes "bundle" ∷ []) ≡ Err (WordFault.BadWord 2) }
    ensures option_twice { request_of (codes "bundle" ∷ codes "a.js" ∷ codes "--workers=9" ∷ codes "--workers" ∷ codes "3" ∷ []) ≡ Err (WordFault.BadWord 4) }
    ensures plain { request_of (codes "deps" ∷ codes "a.js" ∷ [])
        ≡ Ok (record { action = Action.Deps; ask = record { options = standard_options; entries = codes "/a.js" ∷ [] }; full = false; workers = 4; root = None; cache = None }) }
    ensures two_entries { request_of (codes "replay" ∷ codes "--full" ∷ codes "a.js" ∷ codes "/b.js" ∷ [])
        ≡ Ok (record {
          action = Action.Replay;
          ask = record { options = standard_options; entries = codes "/a.js" ∷ codes "/b.js" ∷ [] };
          full = true;
          workers = 4;
          root = None;
          cache = None;
        }) }
    ensures options { request_of (codes "bundle" ∷ codes "a.js" ∷ codes "--platform" ∷ codes "web" ∷ codes "--dev=false" ∷ codes "--strip"
        ∷ codes "--workers=9" ∷ codes "--root" ∷ codes "app" ∷ codes "--cache=store" ∷ [])
        ≡ Ok (record {
          action = Action.Bundle;
          ask = record { options = record standard_options { platform = codes "web"; dev = false; strip = true }; entries = codes "/a.js" ∷ [] };
          full = false;
          workers = 9;
          root = Some (codes "app");
          cache = Some (codes "store");
        }) }
    ensures grown { request_of (codes "grow" ∷ codes "1" ∷ codes "5000" ∷ codes "50" ∷ [])
        ≡ Ok (record { action = Action.Grow (record { seed = 1; modules = 5000; edits = 50 }); ask = grown_ask; full = false; workers = 4; root = None; cache = None }) }
{}
