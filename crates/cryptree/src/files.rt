//! The files that the words name.
use cryptree_cli::words::Form;
use std::fs::{File, OpenOptions};
use std::io::{self, Read};
use std::os::fd::AsRawFd;

/// The highest number of a standard stream.
const STDERR: i32 = 2;

/// What a command does with the store's file.
#[derive(Clone, Copy, PartialEq, Eq)]
pub(crate) enum Access {
    Read,
    Write,
    /// It writes the file, and makes it where it is missing.
    Make,
}

impl Access {
    /// `None` where the words name no store.
    pub(crate) fn of(form: Form) -> Option<Access> {
        match form {
            Form::Make | Form::Gen { .. } => Some(Access::Make),
            Form::Run { .. } | Form::Serve | Form::Upgrade { .. } => Some(Access::Write),
            Form::List { .. } | Form::Open { .. } | Form::Audit { .. } => Some(Access::Read),
            Form::Head | Form::Prove { .. } => Some(Access::Read),
            Form::Check { .. } | Form::Help | Form::Version => None,
        }
    }
}

/// Opens the store's file. `None` where it can't be opened so.
pub(crate) fn open_store(rt: &HostRuntime, path: &[u8], access: Access) -> Option<File> {
    let path = std::str::from_utf8(path).ok()?;
    let file = OpenOptions::new()
        .read(true)
        .write(access != Access::Read)
        .create(access == Access::Make)
        .open(rt, path)
        .ok()?;
    behind_streams(file).ok()
}

/// Where a standard stream is closed, a file that is opened takes its number, and what is meant for the stream
/// would land in the file: so the file gets a number of its own.
fn behind_streams(file: File) -> io::Result<File> {
    if file.as_raw_fd() <= STDERR {
        file.try_clone()
    } else {
        Ok(file)
    }
}

/// RANDOM: an open file, `-` for no bytes, or a file that can't be opened, whose first read fails.
#[derive(Drop)]
pub(crate) enum Random {
    Open(File),
    Nothing,
    Missing,
}

impl Random {
    pub(crate) fn open(rt: &HostRuntime, path: &[u8]) -> Random {
        if path == b"-".as_slice() {
            return Random::Nothing;
        }
        let Ok(path) = std::str::from_utf8(path) else {
            return Random::Missing;
        };
        match File::open(rt, path).and_then(behind_streams) {
            Ok(file) => Random::Open(file),
            Err(_) => Random::Missing,
        }
    }
}

impl Read for Random {
    fn read(&mut self, buf: &mut [u8]) -> io::Result<usize> {
        match self {
            Random::Open(file) => file.read(buf),
            Random::Nothing => Ok(0),
            Random::Missing => Err(io::ErrorKind::NotFound.into()),
        }
    }
}
