//! The eleven kinds of links.
use crate::{RoleKind, Row, Table};

/// The eleven kinds of links (docs/FORMAT.md, "Kinds of links").
pub const ELEVEN: Table<11> = Table {
    rows: [
        Row {
            number: 1,
            from: RoleKind::Owner,
            to: RoleKind::Clear,
        },
        Row {
            number: 2,
            from: RoleKind::Holder,
            to: RoleKind::Clear,
        },
        Row {
            number: 3,
            from: RoleKind::Clear,
            to: RoleKind::Sub,
        },
        Row {
            number: 4,
            from: RoleKind::Sub,
            to: RoleKind::Back,
        },
        Row {
            number: 5,
            from: RoleKind::Sub,
            to: RoleKind::Files,
        },
        Row {
            number: 6,
            from: RoleKind::Sub,
            to: RoleKind::Sub,
        },
        Row {
            number: 7,
            from: RoleKind::Back,
            to: RoleKind::Data,
        },
        Row {
            number: 8,
            from: RoleKind::Back,
            to: RoleKind::Back,
        },
        Row {
            number: 9,
            from: RoleKind::Files,
            to: RoleKind::File,
        },
        Row {
            number: 10,
            from: RoleKind::Clear,
            to: RoleKind::File,
        },
        Row {
            number: 11,
            from: RoleKind::Clear,
            to: RoleKind::Back,
        },
    ],
};
