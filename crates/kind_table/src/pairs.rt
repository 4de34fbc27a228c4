//! Which kinds of keys may seal keys of which kind, and which may seal texts, as traits of the kinds.
ghost use Rattle.std.specs.Prelude.{◌≡◌, ℕ, Some, refl};
ghost use Rattle.std.proofs.Common.{inl, inr};
ghost use Rattle.cry_base.specs.Sets.{In};
ghost use Rattle.kind_table.specs.declared.kinds.RoleKind.{RoleKind};
ghost use Rattle.kind_table.specs.declared.eleven.TheConstants.{ELEVEN};
ghost use Rattle.kind_table.specs.Rows.{kinds_row};
ghost use Rattle.kind_table.specs.Sealing.{content_of};

use crate::{BackK, ClearK, DataK, FileK, FilesK, HolderK, OwnerK, SubK};

/// A kind of key, as a type.
pub trait KeyKind {
    ghost kind: { RoleKind };
}

/// A key of this kind may seal a key of the kind `B`. So it is for the pairs of `ELEVEN` alone: each
/// `impl` proves that its row stands there.
pub trait LinksTo<B: KeyKind>: KeyKind {
    /// The number of the row, 1 to 11.
    const NUMBER: u8;

    ghost NUMBER: { ℕ };

    ghost is_row: { In (kinds_row NUMBER Self.kind B.kind) ELEVEN.rows };
}

/// A key of this kind seals texts.
pub trait Seals: KeyKind {
    /// The kind of the contents, 1 to 3 (docs/FORMAT.md, "Records").
    const CONTENT: u8;

    ghost CONTENT: { ℕ };

    ghost is_content: { content_of Self.kind ≡ Some CONTENT };
}

impl KeyKind for OwnerK {
    ghost kind = { RoleKind.Owner };
}

impl KeyKind for HolderK {
    ghost kind = { RoleKind.Holder };
}

impl KeyKind for ClearK {
    ghost kind = { RoleKind.Clear };
}

impl KeyKind for SubK {
    ghost kind = { RoleKind.Sub };
}

impl KeyKind for BackK {
    ghost kind = { RoleKind.Back };
}

impl KeyKind for FilesK {
    ghost kind = { RoleKind.Files };
}

impl KeyKind for DataK {
    ghost kind = { RoleKind.Data };
}

impl KeyKind for FileK {
    ghost kind = { RoleKind.File };
}

impl LinksTo<ClearK> for OwnerK {
    const NUMBER: u8 = 1;

    ghost NUMBER = { 1 };

    ghost is_row = { inl refl };
}

impl LinksTo<ClearK> for HolderK {
    const NUMBER: u8 = 2;

    ghost NUMBER = { 2 };

    ghost is_row = { inr (inl refl) };
}

impl LinksTo<SubK> for ClearK {
    const NUMBER: u8 = 3;

    ghost NUMBER = { 3 };

    ghost is_row = { inr (inr (inl refl)) };
}

impl LinksTo<BackK> for SubK {
    const NUMBER: u8 = 4;

    ghost NUMBER = { 4 };

    ghost is_row = { inr (inr (inr (inl refl))) };
}

impl LinksTo<FilesK> for SubK {
    const NUMBER: u8 = 5;

    ghost NUMBER = { 5 };

    ghost is_row = { inr (inr (inr (inr (inl refl)))) };
}

impl LinksTo<SubK> for SubK {
    const NUMBER: u8 = 6;

    ghost NUMBER = { 6 };

    ghost is_row = { inr (inr (inr (inr (inr (inl refl))))) };
}

impl LinksTo<DataK> for BackK {
    const NUMBER: u8 = 7;

    ghost NUMBER = { 7 };

    ghost is_row = { inr (inr (inr (inr (inr (inr (inl refl)))))) };
}

impl LinksTo<BackK> for BackK {
    const NUMBER: u8 = 8;

    ghost NUMBER = { 8 };

    ghost is_row = { inr (inr (inr (inr (inr (inr (inr (inl refl))))))) };
}

impl LinksTo<FileK> for FilesK {
    const NUMBER: u8 = 9;

    ghost NUMBER = { 9 };

    ghost is_row = { inr (inr (inr (inr (inr (inr (inr (inr (inl refl)))))))) };
}

impl LinksTo<FileK> for ClearK {
    const NUMBER: u8 = 10;

    ghost NUMBER = { 10 };

    ghost is_row = { inr (inr (inr (inr (inr (inr (inr (inr (inr (inl refl))))))))) };
}

impl LinksTo<BackK> for ClearK {
    const NUMBER: u8 = 11;

    ghost NUMBER = { 11 };

    ghost is_row = { inr (inr (inr (inr (inr (inr (inr (inr (inr (inr (inl refl)))))))))) };
}

impl Seals for DataK {
    const CONTENT: u8 = 1;

    ghost CONTENT = { 1 };

    ghost is_content = { refl };
}

impl Seals for FileK {
    const CONTENT: u8 = 2;

    ghost CONTENT = { 2 };

    ghost is_content = { refl };
}

impl Seals for OwnerK {
    const CONTENT: u8 = 3;

    ghost CONTENT = { 3 };

    ghost is_content = { refl };
}
