//! Laws of generated scripts.
ghost use Rattle.std.specs.Prelude.{◌≡◌, ◌≢◌, ◌≤◌, ◌+◌, ◌*◌, ℕ, All, Some, map, length};
ghost use Rattle.cry_base.specs.Requests.{Request};
ghost use Rattle.cry_base.specs.Sets.{In};
ghost use Rattle.cry_base.specs.Store.{Store, root_store};
ghost use Rattle.script_text.specs.Commands.{IsCommandLine, request_in};
ghost use Rattle.store_gen.specs.Accepting.{AcceptsAll, LeadsTo};
ghost use Rattle.store_gen.specs.Rule.{drawn_after, first, requests, script_of};
ghost use Rattle.store_gen.specs.Spelling.{spelled};
ghost use Rattle.store_gen.specs.Standing.{Stands};

/// Law: from a fresh store on the plain store refuses no line of a script, whatever keys are drawn for its holders and
/// wherever a file may have a byte.
pub fn scripts_are_accepted()
    ensures { (seed count file_bytes : ℕ) → 1 ≤ file_bytes → AcceptsAll file_bytes root_store (requests seed count) }
{}

/// Law: after a script's lines, whatever keys are drawn, the eight folders stand below the root, the four holders were
/// made, each file `t` is in the folder and each grant stands as the rule has it, and all other files were written.
pub fn scripts_leave_what_the_rule_has()
    ensures { (seed count : ℕ) (after : Store) → LeadsTo root_store (requests seed count) after
        → Stands (drawn_after count (first seed)) after }
{}

/// Law: each line of a script is a command's line, holds no newline, and is read as what it asks for. A script has as
/// many lines as were wanted, and 20 before them, each of 16 bytes at most with its newline.
pub fn lines_are_commands()
    ensures spelled { (seed count : ℕ) (r : Request) → In r (requests seed count) → IsCommandLine (spelled r) r }
    ensures one_line { (seed count : ℕ) (r : Request) → In r (requests seed count) → All (λ byte. byte ≢ 10) (spelled r) }
    ensures read { (seed count : ℕ) → map request_in (map spelled (requests seed count)) ≡ map Some (requests seed count) }
    ensures length { (seed count : ℕ) → length (requests seed count) ≡ 20 + count }
    ensures bytes { (seed count : ℕ) → length (script_of seed count) ≤ 16 * (20 + count) }
{}
