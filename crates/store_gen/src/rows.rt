//! Worked rows of generated scripts, each computed by the checker from the definitions.
ghost use Rattle.std.specs.Prelude.{◌≡◌, [], ◌∷◌, codes};
ghost use Rattle.store_gen.specs.WorkedLines.{first_lines, hundred};

/// The two lines that the seed 0 draws first.
#[tactic(auto, unfolding(crate::specs::WorkedLines::generated))]
pub fn generated_two()
    ensures { first_lines 2 0 ≡ codes "grant 4 /d7" ∷ codes "write /d4/f0 3b" ∷ [] }
{}

/// The hundred lines that the seed 7 draws first: grants are given and taken back, and files are moved on.
#[tactic(auto, unfolding(crate::specs::WorkedLines::generated))]
pub fn generated_hundred()
    ensures { first_lines 100 7 ≡ hundred }
{}
