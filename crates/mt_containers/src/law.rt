//! Laws of the definitions.
ghost use Rattle.std.specs.Prelude.{◌≡◌, ◌↔◌, List, Option, Some, [], Bool};
ghost use Rattle.std.specs.Bool.{Decides};
ghost use Rattle.std.specs.List.{Contains, list_any};
ghost use Rattle.mt_containers.specs.Walks.{IsClosed, IsReached, reach_among};
ghost use Rattle.mt_containers.specs.Explorations.{HasRow, IsExplored};

/// Does nothing, and carries laws of keys of any type, whose equality is decided.
///
/// Where no walk leaves a list of keys, its reach has exactly the keys to which a walk leads. Where nothing waits, an
/// exploration has given rows to exactly these keys, and each key has its own row.
pub fn law_of_walks<K, X>()
    ensures reach { (eq : K → K → Bool) (step : K → List K) (starts keys : List K) (key : K)
        → ((a b : K) → Decides (eq a b) (a ≡ b)) → IsClosed step starts keys
        → Contains (reach_among eq step starts keys) key ↔ IsReached step starts key }
    ensures explored { (step : K → List K) (starts : List K) (row : K → X) (rows : K → Option X) (key : K)
        → IsExplored step starts row rows []
        → (IsReached step starts key → rows key ≡ Some (row key)) × (HasRow rows key → IsReached step starts key) }
{}
