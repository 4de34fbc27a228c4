//! cryptree: shared folders in one store file, on a disk that nobody has to trust.
#![tactic(auto)]

mod files;
mod progress;

use crate::files::{Access, Random, open_store};
use crate::progress::{Progress, pace_of};
use cry_base::{List, Mem, Text};
use cry_io::{FileDisk, StdSink, StdSource};
use cryptree_cli::status::{Status, fault_line};
use cryptree_cli::top::top;
use cryptree_cli::words::form_of;
use file_disks::{ReadAhead, Watched};
use std::process::ExitCode;
use std::{env, io};

fn main(rt: HostRuntime) -> ExitCode {
    let status = match words_given(&rt) {
        Ok(words) => run(&rt, &words),
        Err(_) => Status::OutOfMemory,
    };
    tell(&rt, &status);
    ExitCode::from(status.code())
}

/// The words after the program's name. Where one isn't UTF-8 there are none, which is the usage answer.
fn words_given(rt: &HostRuntime) -> Mem<List<Text>> {
    let mut words = List::new(rt.alloc());
    match env::args(rt) {
        Ok(args) => {
            for word in args.skip(1) {
                let mut text = List::new(rt.alloc());
                text.append(word.as_bytes())?;
                words.push(text)?;
            }
        }
        Err(error) if error.kind() == io::ErrorKind::OutOfMemory => return Err(
            cry_base::OutOfMemory,
        ),
        Err(_) => {}
    }
    Ok(words)
}

fn run(rt: &HostRuntime, words: &List<Text>) -> Status {
    let form = form_of(words);
    // No file is touched where the words are of no form.
    let (store, random) = match (form.and_then(Access::of), words.as_slice()) {
        (Some(access), [store, random, ..]) => (
            open_store(rt, store.as_slice(), access),
            Random::open(rt, random.as_slice()),
        ),
        _ => (None, Random::Nothing),
    };
    let progress = form.and_then(|form| Progress::of(rt, form));
    let file = ReadAhead::over(rt.alloc(), FileDisk::over(store));
    let mut disk = Watched::over(file, pace_of(form), progress);
    let mut random = StdSource::new(random);
    let mut input = StdSource::new(rt.stdin());
    let mut out = StdSink::new(rt.stdout());
    let status = top(
        rt.alloc(),
        words,
        &mut input,
        &mut random,
        &mut disk,
        &mut out,
    );
    disk.end();
    status
}

/// Prints the status's line on standard error. Where there is no memory, or standard error fails, nothing can be told.
fn tell(rt: &HostRuntime, status: &Status) {
    let mut line = List::new(rt.alloc());
    if fault_line(rt.alloc(), status, &mut line).is_ok() {
        let _ = io::Write::write_all(&mut rt.stderr(), line.as_slice());
    }
}
