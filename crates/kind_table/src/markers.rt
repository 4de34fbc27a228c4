//! The kinds of keys, as types without values of their own: a `Key<SubK>` is no `Key<FilesK>`.

/// The owner's key.
#[derive(Clone, Copy, Debug)]
pub struct OwnerK;

/// A holder's key.
#[derive(Clone, Copy, Debug)]
pub struct HolderK;

/// A folder's or a file's clearance key, which a grant hands out.
#[derive(Clone, Copy, Debug)]
pub struct ClearK;

/// A folder's subfolder key, which leads to its other keys and to its subfolders.
#[derive(Clone, Copy, Debug)]
pub struct SubK;

/// A folder's backlink key, which leads to the names of the folders above.
#[derive(Clone, Copy, Debug)]
pub struct BackK;

/// A folder's files key, which leads to the files in it.
#[derive(Clone, Copy, Debug)]
pub struct FilesK;

/// A folder's data key, which seals its name.
#[derive(Clone, Copy, Debug)]
pub struct DataK;

/// A file's key, which seals its name and its bytes.
#[derive(Clone, Copy, Debug)]
pub struct FileK;
