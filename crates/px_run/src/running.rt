//! Answers commands in order, and writes the replies.
ghost use Rattle.std.specs.Prelude.{◌≡◌, ◌<◌, IfOk, length};
ghost use Rattle.px_printer.specs.Replies.{IsReplyNamed, reply_text};
ghost use Rattle.px_run.specs.Answers.{AnswerRight, IsAnswerText, IsAnswered, PutRight};
ghost use Rattle.px_run.specs.Outcomes.{sink_ends, ExecutedRight};

use crate::status::Status;
use px_io::{Sink, put};
use px_printer::{Reply, reply_text};
use px_session::Session;
use px_terms::NoMemory;
use std::alloc::Global;
use thiserror::Error;

/// Why a command isn't answered.
#[derive(Debug, Drop, Error)]
pub enum AnswerErr {
    /// A write failed.
    #[error("a write failed")]
    Fault,
    /// There is no memory for the reply or its text.
    #[error("out of memory")]
    NoMemory,
}

/// Answers the command at the place, the next one, and puts the text of the reply.
fn put_answer<K: Sink>(
    alloc: Global,
    session: &mut Session,
    place: usize,
    sink: &mut K,
) -> Result<(), AnswerErr>
    requires place { place < length session.old.commands }
    requires next { place ≡ session.old.done }
    ensures right { AnswerRight session.old session.new (sink_ends K.written K.faults K.sure sink.old sink.new) result }
    ensures nature { K.sure sink.new ≡ K.sure sink.old }
{
    match answer_text(alloc, session, place) {
        Ok(text) => put_text(sink, &text),
        Err(NoMemory) => Err(AnswerErr::NoMemory),
    }
}

/// Puts the text of a reply.
fn put_text<K: Sink>(sink: &mut K, text: &[u8]) -> Result<(), AnswerErr>
    ensures right { PutRight text.now (sink_ends K.written K.faults K.sure sink.old sink.new) result }
    ensures nature { K.sure sink.new ≡ K.sure sink.old }
{
    match put(sink, text) {
        Ok(()) => Ok(()),
        Err(_) => Err(AnswerErr::Fault),
    }
}

/// Returns the text of a lawful reply to the command at the place, the next one.
fn answer_text(alloc: Global, session: &mut Session, place: usize) -> Result<Vec<u8>, NoMemory>
    requires place { place < length session.old.commands }
    requires next { place ≡ session.old.done }
    ensures { IfOk result (λ text. IsAnswerText session.old session.new text.items) }
{
    let reply = lawful_reply(session, place)?;
    let text = text_of(alloc, &reply, session);
    // by a call, which is proved once: where a scope ends, the proof takes each part by itself
    drop(reply);
    text
}

/// Returns a lawful reply to the command at the place, the next one.
pub(crate) fn lawful_reply(session: &mut Session, place: usize) -> Result<Reply, NoMemory>
    requires place { place < length session.old.commands }
    requires next { place ≡ session.old.done }
    ensures answered { IfOk result (λ reply. IsAnswered session.old reply session.new) }
    ensures named { IfOk result (IsReplyNamed session.new.names) }
{
    session.execute(place)
}

/// Returns the text of a reply of the session.
fn text_of(alloc: Global, reply: &Reply, session: &Session) -> Result<Vec<u8>, NoMemory>
    requires named { IsReplyNamed session.now.names reply.now }
    ensures text { IfOk result (λ text. text.items ≡ reply_text session.now.names reply.now) }
{
    reply_text(alloc, reply, session.names())
}

/// Answers all commands of a session of which none is done.
pub fn execute<K: Sink>(alloc: Global, session: &mut Session, sink: &mut K) -> Status
    requires start { session.old.done ≡ 0 }
    ensures right { ExecutedRight session.old (sink_ends K.written K.faults K.sure sink.old sink.new) result }
    ensures nature { K.sure sink.new ≡ K.sure sink.old }
{
    for place in 0..session.count() {
        match put_answer(alloc, session, place, sink) {
            Ok(()) => {}
            Err(AnswerErr::Fault) => return Status::WriteFault,
            Err(AnswerErr::NoMemory) => return Status::NoMemory,
        }
    }
    Status::Done
}
