//! The line that shows on a terminal that a long run goes on.
use cryptree_cli::words::Form;
use file_disks::{Onlooker, Pace};
use std::io::{IsTerminal, Write};
use std::time::{Duration, Instant};

/// The least time between two lines, in milliseconds.
const PAUSE: u64 = 100;

/// The batches before the first command: of `run` and `serve` the session's own, of `gen` that of the root as well.
pub(crate) fn pace_of(form: Option<Form>) -> Pace {
    Pace::behind(match form {
        Some(Form::Gen { .. }) => 2,
        _ => 1,
    })
}

/// How far a run is, told on standard error.
#[derive(Drop)]
pub(crate) struct Progress<'a> {
    rt: &'a HostRuntime,
    told: Option<Instant>,
}

impl Progress<'_> {
    /// `None` where no line is to be shown: standard error is no terminal, or the replies of `run` or `serve` are shown on one.
    pub(crate) fn of(rt: &HostRuntime, form: Form) -> Option<Progress<'_>> {
        let is_silent = match form {
            Form::Gen { .. } => true,
            Form::Run { .. } | Form::Serve => !rt.stdout().is_terminal(),
            _ => false,
        };
        if is_silent && rt.stderr().is_terminal() {
            Some(Progress { rt, told: None })
        } else {
            None
        }
    }
}

impl Onlooker for Progress<'_> {
    /// Tells it at most ten times a second. What can't be told isn't.
    fn tell(&mut self, commands: u64) {
        let Ok(now) = Instant::now(self.rt) else {
            return;
        };
        if self.told.is_some_and(|told| now.duration_since(told) < Duration::from_millis(PAUSE)) {
            return;
        }
        self.told = Some(now);
        let _ = write!(self.rt.stderr(), "\r{} commands\r", commands);
    }

    /// Blanks the line, where there is one.
    fn end(&self) {
        if self.told.is_some() {
            let _ = write!(self.rt.stderr(), "\r                    \r");
        }
    }
}
