ghost use Rattle.std.specs.Prelude.{◌≡◌, ◌≤◌, ℕ, ℤ, List, Some, None, length};
ghost use Rattle.constraint.specs.Admitted.{Bounds, IsRange};
ghost use Rattle.constraint.specs.Nearest.{NearestInRange, NearestInList, NearestEntry};
ghost use Rattle.constraint.specs.NearestComputed.{nearest_in_range, nearest_in_list, nearest_entry};

/// A law: there is at most one nearest value.
pub fn at_most_one_is_nearest()
    /// At most one word, and at most one entry, is nearest, and what the definitions compute is it.
    /// Carried by: `at_most_one_is_nearest`, `what_is_computed_is_nearest`
    ensures in_range { (range : Bounds) (asked a b : ℤ)
        → NearestInRange range asked a → NearestInRange range asked b → a ≡ b }
    ensures in_list { (entries : List ℤ) (asked a b : ℤ)
        → NearestInList entries asked a → NearestInList entries asked b → a ≡ b }
    ensures entry { (entries : List (List ℕ)) (text : List ℕ) (a b : ℕ)
        → NearestEntry entries text a → NearestEntry entries text b → a ≡ b }
{}

/// A law: what the definitions compute is the nearest value, and nothing where there is none.
pub fn what_is_computed_is_nearest()
    ensures in_range { (range : Bounds) (asked : ℤ) → IsRange range
        → NearestInRange range asked (nearest_in_range range asked) }
    ensures in_list { (entries : List ℤ) (asked : ℤ) → 1 ≤ length entries
        → NearestInList entries asked (nearest_in_list entries asked) }
    ensures entry { (entries : List (List ℕ)) (text : List ℕ) (place : ℕ)
        → nearest_entry entries text ≡ Some place → NearestEntry entries text place }
    ensures no_entry { (entries : List (List ℕ)) (text : List ℕ)
        → nearest_entry entries text ≡ None → (place : ℕ) → NearestEntry entries text place → ⊥ }
{}
