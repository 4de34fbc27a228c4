//! The words that the program takes after its name.
ghost use Rattle.std.specs.Prelude.{◌≡◌, ◌≤◌, IfSome};
ghost use Rattle.cli_words.specs.Words.{HasFewLines, form_of_words, option_form, command_form, count_of, heads_form};
ghost use Rattle.cli_words.specs.Words.{longer_command_form, longest_command_form, path_in_words, script_form};

use crate::heads::head_in;
use crate::numbers::{batches_in, number_in};
use cry_base::{List, Text};
use head_tree::Head;

/// What the words ask for.
#[derive(Clone, Copy, Debug, PartialEq, Eq)]
pub enum Form {
    /// `STORE RANDOM make`
    Make,
    /// `STORE RANDOM run`, or with a head behind it
    Run { head: Option<Head> },
    /// `STORE RANDOM serve`
    Serve,
    /// `STORE RANDOM upgrade`, or with a head behind it
    Upgrade { head: Option<Head> },
    /// `STORE RANDOM list`, or with a head behind it
    List { head: Option<Head> },
    /// `STORE RANDOM audit`, or with a head behind it
    Audit { head: Option<Head> },
    /// `STORE RANDOM open PATH`, where any word stands for a path, or with a head behind it
    Open { head: Option<Head> },
    /// `STORE RANDOM gen NUMBER COUNT`
    Gen { seed: u64, count: u32 },
    /// `STORE RANDOM head`
    Head,
    /// `STORE RANDOM prove M`
    Prove { batches: u32 },
    /// `STORE RANDOM check OLD NEW`
    Check { old: Head, new: Head },
    /// `--help`
    Help,
    /// `--version`
    Version,
}

/// The most lines that a generated script has behind its opening.
const LINES: u64 = 50_000;

/// The form of the words, which are those after the program's name, and `None` where they are of no form that is built.
pub fn form_of(words: &List<Text>) -> Option<Form>
    ensures form { result ≡ form_of_words words.now.items }
    ensures few_lines { IfSome result HasFewLines }
{
    match words.as_slice() {
        [only] => option_of(only),
        [_store, _random, command] => command_of(command),
        [_store, _random, command, more] => longer_command_of(command, more),
        [_store, _random, command, one, other] => longest_command_of(command, one, other),
        _ => None,
    }
}

/// The path that `STORE RANDOM open PATH` names, with a head behind it or without, and no bytes where the words name none.
pub fn path_in(words: &List<Text>) -> &[u8]
    ensures { result.now ≡ path_in_words words.now.items }
{
    match words.as_slice() {
        [_store, _random, _command, path] => path.as_slice(),
        [_store, _random, _command, path, _head] => path.as_slice(),
        _ => &[],
    }
}

fn option_of(word: &Text) -> Option<Form>
    ensures form { result ≡ option_form word.now }
    ensures few_lines { IfSome result HasFewLines }
{
    if word.as_slice() == b"--help".as_slice() {
        Some(Form::Help)
    } else if word.as_slice() == b"--version".as_slice() {
        Some(Form::Version)
    } else {
        None
    }
}

fn command_of(word: &Text) -> Option<Form>
    ensures form { result ≡ command_form word.now }
    ensures few_lines { IfSome result HasFewLines }
{
    if word.as_slice() == b"make".as_slice() {
        Some(Form::Make)
    } else if word.as_slice() == b"run".as_slice() {
        Some(Form::Run { head: None })
    } else if word.as_slice() == b"serve".as_slice() {
        Some(Form::Serve)
    } else if word.as_slice() == b"upgrade".as_slice() {
        Some(Form::Upgrade { head: None })
    } else if word.as_slice() == b"list".as_slice() {
        Some(Form::List { head: None })
    } else if word.as_slice() == b"audit".as_slice() {
        Some(Form::Audit { head: None })
    } else if word.as_slice() == b"head".as_slice() {
        Some(Form::Head)
    } else {
        None
    }
}

/// The command that takes one word more.
#[tactic(auto, unfolding(crate::specs::Words::proof_form, crate::specs::Words::head_form))]
fn longer_command_of(word: &Text, more: &Text) -> Option<Form>
    ensures form { result ≡ longer_command_form word.now more.now }
    ensures few_lines { IfSome result HasFewLines }
{
    if word.as_slice() == b"open".as_slice() {
        Some(Form::Open { head: None })
    } else if word.as_slice() == b"prove".as_slice() {
        let batches = batches_in(more.as_slice())?;
        Some(Form::Prove { batches })
    } else if word.as_slice() == b"run".as_slice() {
        let head = head_in(more.as_slice())?;
        Some(Form::Run { head: Some(head) })
    } else if word.as_slice() == b"upgrade".as_slice() {
        let head = head_in(more.as_slice())?;
        Some(Form::Upgrade { head: Some(head) })
    } else if word.as_slice() == b"list".as_slice() {
        let head = head_in(more.as_slice())?;
        Some(Form::List { head: Some(head) })
    } else if word.as_slice() == b"audit".as_slice() {
        let head = head_in(more.as_slice())?;
        Some(Form::Audit { head: Some(head) })
    } else {
        None
    }
}

/// The command that takes two words more.
#[tactic(auto, unfolding(crate::specs::Words::head_form))]
fn longest_command_of(word: &Text, one: &Text, other: &Text) -> Option<Form>
    ensures form { result ≡ longest_command_form word.now one.now other.now }
    ensures few_lines { IfSome result HasFewLines }
{
    if word.as_slice() == b"check".as_slice() {
        heads_of(one, other)
    } else if word.as_slice() == b"open".as_slice() {
        let head = head_in(other.as_slice())?;
        Some(Form::Open { head: Some(head) })
    } else {
        script_of(word, one, other)
    }
}

/// The command that takes two heads more.
#[tactic(auto, unfolding(crate::specs::Words::heads_form))]
fn heads_of(old: &Text, new: &Text) -> Option<Form>
    ensures form { result ≡ heads_form old.now new.now }
    ensures few_lines { IfSome result HasFewLines }
{
    let old = head_in(old.as_slice())?;
    let new = head_in(new.as_slice())?;
    Some(Form::Check { old, new })
}

/// The command that takes a number and a count more.
#[tactic(auto, unfolding(crate::specs::Words::script_form))]
fn script_of(word: &Text, seed: &Text, count: &Text) -> Option<Form>
    ensures form { result ≡ script_form word.now seed.now count.now }
    ensures few_lines { IfSome result HasFewLines }
{
    if word.as_slice() != b"gen".as_slice() {
        return None;
    }
    let seed = number_in(seed.as_slice())?;
    let count = count_in(count.as_slice())?;
    Some(Form::Gen { seed, count })
}

#[tactic(auto, unfolding(crate::specs::Words::count_of))]
fn count_in(word: &[u8]) -> Option<u32>
    ensures count { result ≡ count_of word.now }
    ensures few { IfSome result (λ count. count ≤ 50000) }
{
    let count = number_in(word)?;
    if count <= LINES {
        Some(count as u32)
    } else {
        None
    }
}
