//! Laws of turns from any stand, wherever it comes from.
ghost use Rattle.std.specs.Prelude.{IsTrue, List, ◌++◌};
ghost use Rattle.public_fold.specs.Journal.{Stand};
ghost use Rattle.public_fold.specs.Records.{Link};
ghost use Rattle.public_fold.specs.Turns.{StandHolds, Turn, turns_fit, turns_links, turns_stand};

/// Law: where all holds of a stand, with some links, all holds after any turns, each of which fits where it comes, with the
/// links that they publish too. Nothing is asked of where the stand comes from.
pub fn what_holds_lasts_through_turns_that_fit()
    ensures { (turns : List Turn) (at : Stand) (links : List Link) → IsTrue (turns_fit at turns) → StandHolds at links
        → StandHolds (turns_stand at turns) (links ++ turns_links at turns) }
{}
