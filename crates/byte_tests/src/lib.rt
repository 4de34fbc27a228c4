//! Tests of bytes: tags, streams and checkpoints by their published vectors, notes and lines by the text of docs/FORMAT.md and
//! docs/PROGRAM.md, and what a stop leaves of a disk in memory. They stand in a crate of their own, so that they are proved from contracts alone, and the
//! crates that they test aren't proved with them again.
#![tactic(auto)]

#[cfg(test)]
mod checkpoints;
#[cfg(test)]
mod lines;
#[cfg(test)]
mod notes;
#[cfg(test)]
mod seat_lines;
#[cfg(test)]
mod stops;
#[cfg(test)]
mod vectors;
