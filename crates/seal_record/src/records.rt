//! Laws of the records of a run.

ghost use Rattle.std.specs.Prelude.{◌≡◌, ℕ, ◌≤◌, List, [], ◌∷◌, ◌++◌, length};
ghost use Rattle.std.specs.List.{All, Any};
ghost use Rattle.seal_record.specs.Records.{Made, Given, IsFitting, Unforged, tag_of, made_of, given_of};

/// What is supposed of the records of a run is so at each earlier moment of it.
pub fn unforged_before()
    ensures { (key : List ℕ) (made more : List Made) (given later : List Given) → All (λ one. one.made ≤ length made) given
        → Unforged key (made ++ more) (given ++ later) → Unforged key made given }
{}

/// A record that fits is one that EWB made: where each made record has its own tag, the last given record, if it fits, has
/// the version, header and cipher of a made one.
pub fn fitting_is_made()
    ensures { (key : List ℕ) (made : List Made) (given : List Given) (last : Given) → All (λ one. one.tag ≡ tag_of key (made_of one)) made
        → last.made ≡ length made → Unforged key made (given ++ last ∷ []) → IsFitting key last
        → Any (λ one. made_of one ≡ given_of last) made }
{}
