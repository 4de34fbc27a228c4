//! Facts of the eleven kinds of links.
ghost use Rattle.std.specs.Prelude.{◌≡◌, ◌≢◌, ◌⊎◌, [], ◌∷◌, map};
ghost use Rattle.cry_base.specs.Sets.{In};
ghost use Rattle.kind_table.specs.declared.eleven.TheConstants.{ELEVEN};
ghost use Rattle.kind_table.specs.declared.kinds.RoleKind.TheVariants.{Owner, Holder, Clear, Data, File};
ghost use Rattle.kind_table.specs.declared.table.Row.{Row};

/// The rows have the numbers 1 to 11. None ends in the owner's or a holder's key, the keys that grants hand out are led to
/// by those two alone, and no row begins in a key that seals names or files.
pub fn eleven_rows()
    ensures numbers { map (λ r. r.number) ELEVEN.rows ≡ 1 ∷ 2 ∷ 3 ∷ 4 ∷ 5 ∷ 6 ∷ 7 ∷ 8 ∷ 9 ∷ 10 ∷ 11 ∷ [] }
    ensures no_root { (r : Row) → In r ELEVEN.rows → (r.to ≢ Owner) × (r.to ≢ Holder) }
    ensures clear { (r : Row) → In r ELEVEN.rows → r.to ≡ Clear → (r.from ≡ Owner) ⊎ (r.from ≡ Holder) }
    ensures no_sealing { (r : Row) → In r ELEVEN.rows → (r.from ≢ Data) × (r.from ≢ File) }
{}
