//! The call that the program makes.
ghost use Rattle.std.specs.Prelude.{◌≡◌, ◌↔◌, ℕ, Option, None, Some};
ghost use Rattle.cry_io.specs.Told.{WhereTold};
ghost use Rattle.cli_base.specs.Promises.Any.{AnyEnds};
ghost use Rattle.cli_heads.specs.Promises.Asking.{AskingEnds};
ghost use Rattle.cli_heads.specs.Promises.Checking.{CheckEnds};
ghost use Rattle.cli_heads.specs.Asked.Asked.{TheHead, TheProof};
ghost use Rattle.cli_reading.specs.Promises.Audit.{AuditEnds};
ghost use Rattle.cli_making.specs.Promises.Gen.{GenEnds};
ghost use Rattle.cli_reading.specs.Promises.List.{ListEnds};
ghost use Rattle.cli_making.specs.Promises.Make.{MakeEnds};
ghost use Rattle.cli_reading.specs.Promises.Open.{OpenEnds};
ghost use Rattle.cli_running.specs.Promises.HeldRun.{HeldRunEnds};
ghost use Rattle.cli_running.specs.Promises.Run.{RunEnds};
ghost use Rattle.cli_serving.specs.Promises.Serve.{ServeEnds};
ghost use Rattle.cli_base.specs.Promises.Text.{TextEnds};
ghost use Rattle.cli_upgrading.specs.Promises.HeldUpgrade.{HeldUpgradeEnds};
ghost use Rattle.cli_upgrading.specs.Promises.Upgrade.{UpgradeEnds};
ghost use Rattle.cli_base.specs.World.{senses_of, world_of};
ghost use Rattle.head_tree.specs.declared.head.Head.{Head};
ghost use Rattle.cli_words.specs.Words.{AsksAudit, AsksCheck, AsksGen, AsksList, AsksOpen, AsksProof, AsksRun, IsHead, IsMake, IsServe};
ghost use Rattle.cli_words.specs.Words.{AsksUpgrade};
ghost use Rattle.cli_words.specs.Words.{form_of_words, path_in_words, text_of};

use cli_base::outside::tell;
use cli_base::status::Status;
use cli_heads::asking::{ask_head, ask_proof};
use cli_heads::checking::check;
use cli_making::generating::generate_store;
use cli_making::make::make;
use cli_reading::audit::Auditing;
use cli_reading::list::Listing;
use cli_reading::open::Opening;
use cli_reading::reading::read_and_print;
use cli_running::held::run_held;
use cli_running::run::run;
use cli_serving::serve::serve;
use cli_upgrading::held::upgrade_held;
use cli_upgrading::upgrade::upgrade;
use cli_words::texts::{HELP, VERSION};
use cli_words::words::{Form, form_of, path_in};
use cry_base::{List, Text};
use cry_io::{Disk, Sink, Source};
use std::alloc::Global;

/// Does what the words ask for (docs/PROGRAM.md, "The program"). `words` are those after the program's name, `disk` is
/// the store's file, `random` a source of random bytes, `out` standard output, `input` standard input.
///
/// Where two causes of an answer hold, the one met first is given; for `make`: words, size, memory, draw, disk, output; for `gen` the
/// same, and before the output for each line of the script memory, draw, disk; for `run`: words, the first line, the head, the store,
/// its version, and then for each line its form, memory, draw, disk, output, and behind them the store and the output for the last head;
/// for `serve` as for `run` without a head, and for a line of a session its form, its refusal, memory, the store, output;
/// for `upgrade`: words, the input, the head, the store, its version, memory, draw, disk, output, and behind it the store and the output
/// for the last head; for `list`, `open` and `audit`: words, the input, the head, the store, output; for `head` and `prove`: words, the
/// store, output; for `check`: words, the input, the proof, output.
/// Want of memory comes at its place in this order, and no clause says when.
pub fn top<S: Source, R: Source, D: Disk, W: Sink>(
    alloc: Global,
    words: &List<Text>,
    input: &mut S,
    random: &mut R,
    disk: &mut D,
    out: &mut W,
) -> Status
    // Words of no form are answered with usage, and no others are. Nothing is touched then.
    ensures usage { (result ≡ Status.Usage) ↔ (form_of_words words.now.items ≡ None) }
    ensures untouched { result ≡ Status.Usage
        → world_of input.new random.new disk.new out.new ≡ world_of input.old random.old disk.old out.old }

    // What each command promises: when each of its answers comes, and what that leaves (specs/Promises, a file for each).
    ensures makes { IsMake words.now.items → MakeEnds (senses_of S.Source R.Source D.Disk W.Sink) result
        (world_of input.old random.old disk.old out.old) (world_of input.new random.new disk.new out.new) }
    ensures generates { (seed count : ℕ) → AsksGen words.now.items seed count → GenEnds (senses_of S.Source R.Source D.Disk W.Sink) result
        (world_of input.old random.old disk.old out.old) (world_of input.new random.new disk.new out.new) seed count }
    ensures runs { AsksRun words.now.items None → RunEnds (senses_of S.Source R.Source D.Disk W.Sink) result
        (world_of input.old random.old disk.old out.old) (world_of input.new random.new disk.new out.new) }
    ensures runs_held { (head : Head) → AsksRun words.now.items (Some head) → HeldRunEnds head (senses_of S.Source R.Source D.Disk W.Sink)
        result (world_of input.old random.old disk.old out.old) (world_of input.new random.new disk.new out.new) }
    ensures serves { IsServe words.now.items → ServeEnds (senses_of S.Source R.Source D.Disk W.Sink) result
        (world_of input.old random.old disk.old out.old) (world_of input.new random.new disk.new out.new) }
    ensures upgrades { AsksUpgrade words.now.items None → UpgradeEnds (senses_of S.Source R.Source D.Disk W.Sink) result
        (world_of input.old random.old disk.old out.old) (world_of input.new random.new disk.new out.new) }
    ensures upgrades_held { (head : Head) → AsksUpgrade words.now.items (Some head)
        → HeldUpgradeEnds head (senses_of S.Source R.Source D.Disk W.Sink) result
        (world_of input.old random.old disk.old out.old) (world_of input.new random.new disk.new out.new) }
    ensures lists { (head : Option Head) → AsksList words.now.items head → ListEnds head (senses_of S.Source R.Source D.Disk W.Sink) result
        (world_of input.old random.old disk.old out.old) (world_of input.new random.new disk.new out.new) }
    ensures opens { (head : Option Head) → AsksOpen words.now.items head → OpenEnds head (senses_of S.Source R.Source D.Disk W.Sink) result
        (world_of input.old random.old disk.old out.old) (world_of input.new random.new disk.new out.new) (path_in_words words.now.items) }
    ensures audits { (head : Option Head) → AsksAudit words.now.items head
        → AuditEnds head (senses_of S.Source R.Source D.Disk W.Sink) result
        (world_of input.old random.old disk.old out.old) (world_of input.new random.new disk.new out.new) }
    ensures heads { IsHead words.now.items → AskingEnds TheHead (senses_of S.Source R.Source D.Disk W.Sink) result
        (world_of input.old random.old disk.old out.old) (world_of input.new random.new disk.new out.new) }
    ensures proves { (batches : ℕ) → AsksProof words.now.items batches → AskingEnds (TheProof batches)
        (senses_of S.Source R.Source D.Disk W.Sink) result
        (world_of input.old random.old disk.old out.old) (world_of input.new random.new disk.new out.new) }
    ensures checks { (old new : Head) → AsksCheck words.now.items old new → CheckEnds old new
        (senses_of S.Source R.Source D.Disk W.Sink) result
        (world_of input.old random.old disk.old out.old) (world_of input.new random.new disk.new out.new) }
    ensures tells { WhereTold (text_of (form_of_words words.now.items)) (TextEnds (senses_of S.Source R.Source D.Disk W.Sink) result
        (world_of input.old random.old disk.old out.old) (world_of input.new random.new disk.new out.new)) }

    // What every call promises: a fault is told only where one was met, what is told stays told, and counts never fall.
    ensures any { AnyEnds (senses_of S.Source R.Source D.Disk W.Sink) result
        (world_of input.old random.old disk.old out.old) (world_of input.new random.new disk.new out.new) }
{
    match form_of(words) {
        None => Status::Usage,
        Some(Form::Make) => make(alloc, random, disk, out),
        Some(Form::Gen { seed, count }) => generate_store(alloc, seed, count, random, disk, out),
        Some(Form::Run { head: None }) => run(alloc, input, random, disk, out),
        Some(Form::Run { head: Some(head) }) => run_held(alloc, &head, input, random, disk, out),
        Some(Form::Serve) => serve(alloc, input, random, disk, out),
        Some(Form::Upgrade { head: None }) => upgrade(alloc, input, random, disk, out),
        Some(Form::Upgrade { head: Some(head) }) => upgrade_held(
            alloc, &head, input, random, disk, out,
        ),
        Some(Form::List { head }) => read_and_print(alloc, head, &Listing, input, disk, out),
        Some(Form::Audit { head }) => read_and_print(alloc, head, &Auditing, input, disk, out),
        Some(Form::Open { head }) => {
            let opening = Opening {
                path: path_in(words),
            };
            read_and_print(alloc, head, &opening, input, disk, out)
        }
        Some(Form::Head) => ask_head(alloc, disk, out),
        Some(Form::Prove { batches }) => ask_proof(alloc, batches, disk, out),
        Some(Form::Check { old, new }) => check(alloc, &old, &new, input, out),
        Some(Form::Help) => tell(HELP, out),
        Some(Form::Version) => tell(VERSION, out),
    }
}
