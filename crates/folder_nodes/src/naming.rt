//! Names and paths, as docs/FORMAT.md spells them.
ghost use Rattle.std.specs.Prelude.{◌≡◌, ◌≢◌, ◌<◌, ◌==◌, ◌∷◌, ◌++◌, ℕ, List, true, false, length, drop, count_by, IfSome, MatchOption};
ghost use Rattle.std.specs.List.{list_all, position};
ghost use Rattle.cry_base.specs.Naming.{is_name, is_name_byte, is_path, is_root_path, names_of, last_name, parent_path, split_at_slashes};
ghost use Rattle.folder_nodes.specs.Pieces.{pieces_of};

use cry_base::NAME_BYTES;

/// Whether a name may have the byte.
#[tactic(auto, unfolding(cry_base::specs::Naming::is_name_byte, cry_base::specs::Naming::is_between))]
fn is_allowed_byte(byte: u8) -> bool
    ensures { result ≡ is_name_byte byte }
{
    matches!(byte, b'A'..=b'Z' | b'a'..=b'z' | b'0'..=b'9' | b'.' | b'_' | b'-')
}

/// Whether a name may have all of the bytes.
fn are_allowed(bytes: &[u8]) -> bool
    ensures { result ≡ list_all is_name_byte bytes.now }
{
    bytes.iter().all(|byte| is_allowed_byte(*byte))
}

/// Whether the bytes are a name: 1 to 64 letters, digits, `.`, `_` or `-`, and neither `.` nor `..`.
#[tactic(auto, unfolding(cry_base::specs::Naming::is_name, cry_base::specs::Naming::is_between))]
pub fn name_ok(name: &[u8]) -> bool
    ensures { result ≡ is_name name.now }
{
    if name.is_empty() || name.len() > NAME_BYTES {
        return false;
    }
    if name == b".".as_slice() || name == b"..".as_slice() {
        return false;
    }
    are_allowed(name)
}

/// Where the first slash is.
fn slash_in(bytes: &[u8]) -> Option<usize>
    ensures first { result ≡ position (λ b. b == 47) bytes.now }
    ensures within { IfSome result (λ place. place < length bytes.now) }
{
    bytes.iter().position(|byte| *byte == b'/')
}

/// The bytes before the first slash, and those behind it where there is one.
pub(crate) fn first_piece(bytes: &[u8]) -> (&[u8], Option<&[u8]>)
    ensures { split_at_slashes bytes.now ≡ result.0.now ∷ pieces_of result.1 }
{
    match slash_in(bytes) {
        Some(place) => (&bytes[..place], Some(&bytes[place + 1..])),
        None => (bytes, None),
    }
}

/// Whether the bytes are a path: `/` alone, or a `/` before each of one or more names.
#[tactic(auto, unfolding(cry_base::specs::Naming::is_path, cry_base::specs::Naming::names_behind))]
pub fn path_ok(path: &[u8]) -> bool
    ensures { result ≡ is_path path.now }
{
    let Some((slash, behind)) = path.split_first() else {
        return false;
    };
    if *slash != b'/' {
        return false;
    }
    behind.is_empty() || are_names(behind)
}

/// Whether all pieces between slashes are names.
fn are_names(bytes: &[u8]) -> bool
    ensures { result ≡ list_all is_name (split_at_slashes bytes.now) }
{
    let mut left = Some(bytes);
    while let Some(bytes) = left {
        let (piece, behind) = first_piece(bytes);
        if !name_ok(piece) {
            return false;
        }
        left = behind;
    }
    true
}

/// Whether the path is the root's.
#[tactic(auto, unfolding(cry_base::specs::Naming::is_root_path))]
pub(crate) fn is_root(path: &[u8]) -> bool
    ensures { result ≡ is_root_path path.now }
{
    path == b"/".as_slice()
}

/// What is behind the first byte.
pub(crate) fn behind_slash(path: &[u8]) -> &[u8]
    ensures { result.now ≡ drop 1 path.now }
{
    match path.split_first() {
        Some((_, behind)) => behind,
        None => path,
    }
}

/// The last name of a path, which is empty for the root's.
pub(crate) fn last_piece(path: &[u8]) -> &[u8]
    ensures { result.now ≡ last_name (names_of path.now) }
{
    let (mut name, mut left) = first_piece(behind_slash(path));
    while let Some(bytes) = left {
        let (next, rest) = first_piece(bytes);
        name = next;
        left = rest;
    }
    name
}

/// The bytes before a slash and the name, where they end the bytes.
pub(crate) fn cut<'a>(bytes: &'a [u8], name: &[u8]) -> Option<&'a [u8]>
    ensures { MatchOption result ((front : List ℕ) → bytes.now ≢ front ++ 47 ∷ name.now) (λ front. bytes.now ≡ front.now ++ 47 ∷ name.now) }
{
    match bytes.strip_suffix(name) {
        Some(front) => front.strip_suffix(b"/".as_slice()),
        None => None,
    }
}

/// The path without its last name, which is `/` where it has one name alone (docs/FORMAT.md, "Lines").
pub fn front_of(path: &[u8]) -> &[u8]
    requires form { is_path path.now ≡ true }
    requires other { is_root_path path.now ≡ false }
    ensures { result.now ≡ parent_path path.now }
{
    let Some(front) = cut(path, last_piece(path)) else {
        unreachable!();
    };
    if front.is_empty() {
        return b"/".as_slice();
    }
    front
}

/// How many names a path has that isn't the root's.
pub(crate) fn count_names(path: &[u8]) -> usize
    requires form { is_path path.now ≡ true }
    requires other { is_root_path path.now ≡ false }
    ensures { result ≡ length (names_of path.now) }
{
    count_slashes(path)
}

fn count_slashes(path: &[u8]) -> usize
    ensures { result ≡ count_by (λ b. b == 47) path.now }
{
    path.iter().filter(|byte| **byte == b'/').count()
}
