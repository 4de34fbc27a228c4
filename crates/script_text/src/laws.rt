//! Laws of the lines, for whoever reasons about lines that were printed or will be read.
ghost use Rattle.std.specs.Prelude.{◌≡◌, ◌≤◌, ◌↔◌, ◌∷◌, ◌++◌, [], ℕ, List, Some, length};
ghost use Rattle.cry_base.specs.Texts.{hex_of};
ghost use Rattle.cry_base.specs.declared.client.Bundle.{Bundle};
ghost use Rattle.cry_base.specs.declared.client.Bundle.TheVariants.{Owner};
ghost use Rattle.hex.specs.Hex.{IsBytes, encode_lower};
ghost use Rattle.cry_base.specs.Requests.{Request};
ghost use Rattle.script_text.specs.Commands.{IsCommandLine, request_in};
ghost use Rattle.script_text.specs.Printing.{owner_line};
ghost use Rattle.script_text.specs.Reading.{IsBundleLine, bundle_of};
ghost use Rattle.script_text.specs.Seats.{IsTurnLine, Turn, turn_in};
ghost use Rattle.script_text.specs.Tasks.{IsTaskLine, Task, task_in};

/// Law: the bundle that is read from a line is the one whose line it is.
pub fn bundles_are_spelled()
    ensures { (line : List ℕ) (bundle : Bundle) → (bundle_of line ≡ Some bundle) ↔ IsBundleLine line bundle }
{}

/// Law: a bundle's line has at most 82 bytes, so a longer line needs no more of it to be kept.
pub fn bundle_lines_are_short()
    ensures { (line : List ℕ) (bundle : Bundle) → bundle_of line ≡ Some bundle → length line ≤ 82 }
{}

/// Law: what `print_owner` prints, without its newline, is read as that owner's bundle.
pub fn owner_line_reads_back()
    ensures { (key line : List ℕ) → length key ≡ 32 → IsBytes key → owner_line key ≡ line ++ 10 ∷ [] → bundle_of line ≡ Some (Owner key) }
{}

/// Law: bytes are printed as the crate `hex` encodes them in lower case.
pub fn hex_is_in_lower_case()
    ensures { (bytes : List ℕ) → IsBytes bytes → hex_of bytes ≡ encode_lower bytes }
{}

/// Law: what is read from a line is what the line asks for, and no line asks for two things.
pub fn commands_are_spelled()
    ensures one { (line : List ℕ) (one other : Request) → IsCommandLine line one → IsCommandLine line other → one ≡ other }
    ensures read { (line : List ℕ) (request : Request) → (request_in line ≡ Some request) ↔ IsCommandLine line request }
{}

/// Law: so it is with a line of `run`.
pub fn tasks_are_spelled()
    ensures one { (line : List ℕ) (one other : Task) → IsTaskLine line one → IsTaskLine line other → one ≡ other }
    ensures read { (line : List ℕ) (task : Task) → (task_in line ≡ Some task) ↔ IsTaskLine line task }
{}

/// Law: and with a line of `serve`.
pub fn turns_are_spelled()
    ensures one { (line : List ℕ) (one other : Turn) → IsTurnLine line one → IsTurnLine line other → one ≡ other }
    ensures read { (line : List ℕ) (turn : Turn) → (turn_in line ≡ Some turn) ↔ IsTurnLine line turn }
{}
