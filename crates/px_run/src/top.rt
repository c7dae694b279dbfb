//! The top call.
ghost use Rattle.std.specs.Prelude.{◌≡◌, ◌+◌, IfErr, IfOk, List, ℕ, Some, map, length};
ghost use Rattle.std.specs.Io.KnownBytes.{Consumes};
ghost use Rattle.px_script.specs.ReadScripts.{content};
ghost use Rattle.px_script.specs.Ranges.{IsOfStage};
ghost use Rattle.px_script.specs.Stages.{stage_now};
ghost use Rattle.px_session.specs.Opened.{opened_session};
ghost use Rattle.px_words.specs.Orders.{order_of};
ghost use Rattle.px_words.specs.declared.orders.Order.TheVariants.{Run, Check, Demo};
ghost use Rattle.px_run.specs.Prefixes.{HasCheckPrefix, HasDemoPrefix, HasPrefix};
ghost use Rattle.px_run.specs.Laws.{CarriesWhereDone, CertifiesWhereDone};
ghost use Rattle.px_run.specs.Outcomes.{source_ends, sink_ends, Came, CheckCompletes, CheckCompletesSurely, CheckRefuses, IsUnread, DemoCompletes, DemoCompletesSurely, UsageRight, RefusalRight, ExecutedRight, RunRight, StatusRight, Completes, CompletesSurely, Refuses};

use crate::check::check;
use crate::demo::demo;
use crate::running::execute;
use crate::status::Status;
use px_io::{ReadErr, Sink, Source, put, read_all};
use px_printer::{refused_text, usage_text};
use px_reader::{Refused, ScriptErr, read_script};
use px_script::Script;
use px_session::Session;
use px_terms::NoMemory;
use px_words::{Order, order_of};
use std::alloc::Global;

/// How many bytes a script or a certificate has at most.
const LIMIT: usize = 1_048_576;

// Alike: `obey` and `run` below and `check`, since each states its own contract over the same source and sink.
/// Does all that the program does: `words` are those of the command line, without the program's name. `run` reads a script from the
/// source and answers it; `demo ROOMS SEED` makes a script, and sums up the replies to it; `check` reads a certificate from the source and
/// says whether it is right. Any other words aren't taken, so they are `Usage`.
///
/// For every script, with or without a building, the transcript holds one lawful reply for each command (`right`): PLANEX acts by the
/// highest kernel that fits, and the replies that no plan was found, that a limit was met or that no kernel fits come exactly where their
/// definitions hold (laws of `px_session`). So the world's atoms carry the steps of each plan that a reply prints to its goal, and each
/// proper instance of each kernel of each table that is kept carries the steps that are left (`carries`). A run that has sensed a kernel,
/// and that nothing disturbs after that, ends at the goal, after no more turns than its table has kernels above that one. A pursuit makes
/// at most one search more than disturbances are recorded, and where it ends at the goal, that holds wherever the axioms and the world's
/// atoms do (`carries`, too).
///
/// A certificate is answered `yes` exactly where its table is one for its problem, and then each proper instance of each of its kernels
/// carries the steps that are left (`certifies`); and `no` where it isn't. Bytes that aren't a certificate are refused with their first bad
/// line and the code 13.
#[tactic(auto, using(crate::proofs::Carried::is_carried))]
pub fn planex_main<'a, S: Source, K: Sink>(
    alloc: Global,
    words: &'a [&'a str],
    source: &mut S,
    sink: &mut K,
) -> Status
    ensures right { StatusRight (order_of (map (λ word. word.now) words.now))
        (source_ends S.left S.taken S.faults S.never_fails source.old source.new)
        (sink_ends K.written K.faults K.sure sink.old sink.new)
        result }
    ensures completes { order_of (map (λ word. word.now) words.now) ≡ Some Run → Completes
        (source_ends S.left S.taken S.faults S.never_fails source.old source.new)
        (sink_ends K.written K.faults K.sure sink.old sink.new)
        result }
    ensures completes_surely { order_of (map (λ word. word.now) words.now) ≡ Some Run → CompletesSurely
        (source_ends S.left S.taken S.faults S.never_fails source.old source.new)
        (sink_ends K.written K.faults K.sure sink.old sink.new)
        result }
    ensures refuses { order_of (map (λ word. word.now) words.now) ≡ Some Run → Refuses
        (source_ends S.left S.taken S.faults S.never_fails source.old source.new)
        (sink_ends K.written K.faults K.sure sink.old sink.new)
        result }
    ensures prefix { order_of (map (λ word. word.now) words.now) ≡ Some Run → HasPrefix
        (source_ends S.left S.taken S.faults S.never_fails source.old source.new)
        (sink_ends K.written K.faults K.sure sink.old sink.new)
        result }
    ensures demo_completes { (rooms seed : ℕ) → order_of (map (λ word. word.now) words.now) ≡ Some (Demo rooms seed)
        → DemoCompletes (sink_ends K.written K.faults K.sure sink.old sink.new) result }
    ensures demo_completes_surely { (rooms seed : ℕ) → order_of (map (λ word. word.now) words.now) ≡ Some (Demo rooms seed)
        → DemoCompletesSurely rooms seed (sink_ends K.written K.faults K.sure sink.old sink.new) result }
    ensures demo_prefix { (rooms seed : ℕ) → order_of (map (λ word. word.now) words.now) ≡ Some (Demo rooms seed)
        → HasDemoPrefix rooms seed (sink_ends K.written K.faults K.sure sink.old sink.new) result }
    ensures check_completes { order_of (map (λ word. word.now) words.now) ≡ Some Check → CheckCompletes
        (source_ends S.left S.taken S.faults S.never_fails source.old source.new)
        (sink_ends K.written K.faults K.sure sink.old sink.new)
        result }
    ensures check_completes_surely { order_of (map (λ word. word.now) words.now) ≡ Some Check → CheckCompletesSurely
        (source_ends S.left S.taken S.faults S.never_fails source.old source.new)
        (sink_ends K.written K.faults K.sure sink.old sink.new)
        result }
    ensures check_refuses { order_of (map (λ word. word.now) words.now) ≡ Some Check → CheckRefuses
        (source_ends S.left S.taken S.faults S.never_fails source.old source.new)
        (sink_ends K.written K.faults K.sure sink.old sink.new)
        result }
    ensures check_prefix { order_of (map (λ word. word.now) words.now) ≡ Some Check → HasCheckPrefix
        (source_ends S.left S.taken S.faults S.never_fails source.old source.new)
        (sink_ends K.written K.faults K.sure sink.old sink.new)
        result }
    ensures certifies { order_of (map (λ word. word.now) words.now) ≡ Some Check → CertifiesWhereDone
        (source_ends S.left S.taken S.faults S.never_fails source.old source.new) result }
    ensures carries { CarriesWhereDone (source_ends S.left S.taken S.faults S.never_fails source.old source.new) result }
    ensures gone { (came : List ℕ) × Consumes (S.left source.old) (S.left source.new) came
        × (S.taken source.new ≡ S.taken source.old + length came) }
    ensures unread { ¬ (order_of (map (λ word. word.now) words.now) ≡ Some Run)
        → ¬ (order_of (map (λ word. word.now) words.now) ≡ Some Check) → source.new ≡ source.old }
    ensures source_nature { S.never_fails source.new ≡ S.never_fails source.old }
    ensures sink_nature { K.sure sink.new ≡ K.sure sink.old }
{
    obey(alloc, words, source, sink)
}

/// Does what the words order.
#[tactic(auto, using(crate::proofs::DemoLemmas::no_memory, crate::proofs::DemoLemmas::ordered, crate::proofs::CheckLemmas::checked))]
fn obey<'a, S: Source, K: Sink>(
    alloc: Global,
    words: &'a [&'a str],
    source: &mut S,
    sink: &mut K,
) -> Status
    ensures right { StatusRight (order_of (map (λ word. word.now) words.now))
        (source_ends S.left S.taken S.faults S.never_fails source.old source.new)
        (sink_ends K.written K.faults K.sure sink.old sink.new)
        result }
    ensures gone { (came : List ℕ) × Consumes (S.left source.old) (S.left source.new) came
        × (S.taken source.new ≡ S.taken source.old + length came) }
    ensures unread { ¬ (order_of (map (λ word. word.now) words.now) ≡ Some Run)
        → ¬ (order_of (map (λ word. word.now) words.now) ≡ Some Check) → source.new ≡ source.old }
    ensures source_nature { S.never_fails source.new ≡ S.never_fails source.old }
    ensures sink_nature { K.sure sink.new ≡ K.sure sink.old }
{
    match order_of(alloc, words) {
        Ok(Some(Order::Run)) => run(alloc, source, sink),
        Ok(Some(Order::Demo { rooms, seed })) => demo(alloc, rooms, seed, sink),
        Ok(Some(Order::Check)) => check(alloc, source, sink),
        Ok(None) => usage(sink),
        Err(NoMemory) => Status::NoMemory,
    }
}

/// Writes how the program is called.
fn usage<K: Sink>(sink: &mut K) -> Status
    ensures right { UsageRight (sink_ends K.written K.faults K.sure sink.old sink.new) result }
    ensures nature { K.sure sink.new ≡ K.sure sink.old }
{
    match put(sink, usage_text().as_bytes()) {
        Ok(()) => Status::Usage,
        Err(_) => Status::WriteFault,
    }
}

/// Returns all that comes from the source, or how the program ends where it isn't read.
pub(crate) fn read_input<S: Source>(alloc: Global, source: &mut S) -> Result<Vec<u8>, Status>
    ensures came { IfOk result (λ bytes. Came (source_ends S.left S.taken S.faults S.never_fails source.old source.new) bytes.items) }
    ensures unread { IfErr result (λ status. IsUnread (source_ends S.left S.taken S.faults S.never_fails source.old source.new) status) }
    ensures gone { (came : List ℕ) × Consumes (S.left source.old) (S.left source.new) came
        × (S.taken source.new ≡ S.taken source.old + length came) }
    ensures nature { S.never_fails source.new ≡ S.never_fails source.old }
{
    match read_all(alloc, source, LIMIT) {
        Ok(bytes) => Ok(bytes),
        Err(ReadErr::Fault) => Err(Status::ReadFault),
        Err(ReadErr::TooLong) => Err(Status::TooLong),
        Err(ReadErr::NoMemory) => Err(Status::NoMemory),
    }
}

/// Reads a script, and answers its commands.
fn run<S: Source, K: Sink>(alloc: Global, source: &mut S, sink: &mut K) -> Status
    ensures right { RunRight
        (source_ends S.left S.taken S.faults S.never_fails source.old source.new)
        (sink_ends K.written K.faults K.sure sink.old sink.new)
        result }
    ensures gone { (came : List ℕ) × Consumes (S.left source.old) (S.left source.new) came
        × (S.taken source.new ≡ S.taken source.old + length came) }
    ensures source_nature { S.never_fails source.new ≡ S.never_fails source.old }
    ensures sink_nature { K.sure sink.new ≡ K.sure sink.old }
{
    let bytes = match read_input(alloc, source) {
        Ok(bytes) => bytes,
        Err(unread) => return unread,
    };
    match read_script(alloc, &bytes) {
        Ok(script) => answer(alloc, script, sink),
        Err(ScriptErr::Refused(refused)) => refuse(alloc, refused, sink),
        Err(ScriptErr::NoMemory) => Status::NoMemory,
    }
}

/// Answers the commands of a script.
fn answer<K: Sink>(alloc: Global, script: Script, sink: &mut K) -> Status
    requires stage { IsOfStage stage_now (content script) }
    ensures right { ExecutedRight (opened_session (content script)) (sink_ends K.written K.faults K.sure sink.old sink.new) result }
    ensures nature { K.sure sink.new ≡ K.sure sink.old }
{
    match Session::new(alloc, script) {
        Ok(mut session) => {
            let status = execute(alloc, &mut session, sink);
            // by a call, which is proved once: where a scope ends, the proof takes each part by itself
            drop(session);
            status
        }
        Err(NoMemory) => Status::NoMemory,
    }
}

/// Writes where and why a script or a certificate is refused.
pub(crate) fn refuse<K: Sink>(alloc: Global, refused: Refused, sink: &mut K) -> Status
    ensures right { RefusalRight refused (sink_ends K.written K.faults K.sure sink.old sink.new) result }
    ensures nature { K.sure sink.new ≡ K.sure sink.old }
{
    let Refused { line, code, limit } = refused;
    let Ok(text) = refused_text(alloc, line, code, limit) else {
        return Status::NoMemory;
    };
    match put(sink, &text) {
        Ok(()) => Status::Refused(refused),
        Err(_) => Status::WriteFault,
    }
}
