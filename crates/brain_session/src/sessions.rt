//! Whole sessions over devices: a line is read, the brain steps its command, and its answer is written before the next line is
//! read.
#![tactic(auto)]

ghost use Rattle.brain_session.specs.Serving.{HasAnswered, IsReadToEnd, StopsAtRead, StopsAtStep, StopsAtWrite, StopsInTurn, IsTooLong, within_limit, output_of, served};
ghost use Rattle.brain_session.specs.Turns.{AnswersCommand, GoesOn, ReadsCommand};
ghost use Rattle.gomocup_text.specs.Commands.{command_told, commands};
ghost use Rattle.renju_io.specs.Asked.{GivesByEach, IsAskedAtMost, IsNotAsked};
ghost use Rattle.renju_io.specs.Faults.{HasRisen, HasStayed, HasNotFallen};
ghost use Rattle.renju_io.specs.Lines.{told_lines};
ghost use Rattle.renju_io.specs.Told.{CutAfter, FailsAfter, GivesSome};
ghost use Rattle.renju_io.specs.declared.TheConstants.{MAX_SESSION_BYTES};
ghost use Rattle.std.specs.Option.{option_to_list};
ghost use Rattle.std.specs.Prelude.{◌≡◌, ◌≢◌, ◌+◌, ◌⊎◌, ◌↔◌, Bool, IfSome, IsErrOf, IsOk, OnOk, Ok, Err, None, Result, map};

use crate::{Brain, Reaction};
use gomocup_text::{Command, read_command, write_answer};
use renju_io::{Line, LineReader, ReadError, Sink, Source};
use std::alloc::Global;
use thiserror::Error;

/// Why a session ended before END and before the end of its input. The brain is in the state after the lines that it stepped.
#[derive(Clone, Copy, Debug, PartialEq, Eq, Error)]
pub enum ServeError {
    /// The source failed: its count of faults rose. The whole lines that it gave are answered, and no more.
    #[error("the input failed")]
    ReadFailed,
    /// The sink failed: its count of faults rose. The line whose answer was not written whole was the last that was stepped.
    #[error("the output failed")]
    WriteFailed,
    /// A line goes on beyond the bytes that a session may have. The lines that end within them are answered.
    #[error("the input is too long")]
    Exhausted,
    /// There is no memory for the lines, and nothing was read, or for the step of a line, and the lines before it are answered.
    #[error("out of memory")]
    Memory,
}

/// Serves the lines of the source up to END or the end of input: each line is stepped, and its answer written in one piece, before
/// the next is read. Nothing is read after a read that failed, and nothing written after a write that failed.
pub fn serve<S: Source, O: Sink>(
    alloc: Global,
    brain: &mut Brain,
    source: &mut S,
    sink: &mut O,
) -> Result<(), ServeError>
    ensures ok { OnOk result (IfSome (S.left source.old) (λ left.
        HasAnswered (served brain.old brain.new (output_of O.written O.asked sink.old) (output_of O.written O.asked sink.new)) (commands left))) }
    ensures read_failed { IsErrOf result ServeError.ReadFailed →
        StopsAtRead (served brain.old brain.new (output_of O.written O.asked sink.old) (output_of O.written O.asked sink.new)) (S.left source.old) (S.left source.new) }
    ensures write_failed { IsErrOf result ServeError.WriteFailed → IfSome (S.left source.old) (λ left.
        StopsAtWrite (served brain.old brain.new (output_of O.written O.asked sink.old) (output_of O.written O.asked sink.new)) (commands left)) }
    ensures exhausted { IsErrOf result ServeError.Exhausted → IfSome (S.left source.old) (λ left.
        HasAnswered (served brain.old brain.new (output_of O.written O.asked sink.old) (output_of O.written O.asked sink.new)) (commands (within_limit left))) }
    ensures too_long { IsErrOf result ServeError.Exhausted → IfSome (S.left source.old) IsTooLong }
    ensures memory { IsErrOf result ServeError.Memory →
        (brain.new ≡ brain.old) × (output_of O.written O.asked sink.new ≡ output_of O.written O.asked sink.old) × (S.left source.new ≡ S.left source.old)
        × IsNotAsked (S.asked source.old) (S.asked source.new)
        ⊎ IfSome (S.left source.old) (λ left.
        StopsAtStep (served brain.old brain.new (output_of O.written O.asked sink.old) (output_of O.written O.asked sink.new)) (commands left)) }

    // An answer is written before the next line is read: any write may fail, and where one does no read was made once its line had ended.
    ensures in_turn { IsErrOf result ServeError.WriteFailed → IfSome (S.left source.old) (λ left.
        StopsInTurn (served brain.old brain.new (output_of O.written O.asked sink.old) (output_of O.written O.asked sink.new)) (commands left)
        (S.left source.old) (S.left source.new) (S.last source.new)) }

    // What is left of the devices.
    ensures ended { OnOk result (IsReadToEnd (S.left source.old) (S.left source.new)) }
    ensures taken { GivesSome (S.left source.old) (S.left source.new) }
    ensures read_last { IsErrOf result ServeError.ReadFailed → FailsAfter S.left S.faults source.old source.new }
    ensures written_last { IsErrOf result ServeError.WriteFailed → CutAfter O.written O.faults sink.old sink.new }
    ensures source_failed { IsErrOf result ServeError.ReadFailed → HasRisen (S.faults source.old) (S.faults source.new) }
    ensures source_uncounted { result ≢ Err ServeError.ReadFailed → HasStayed (S.faults source.old) (S.faults source.new) }
    ensures source_counted { HasNotFallen (S.faults source.old) (S.faults source.new) }
    ensures sink_failed { IsErrOf result ServeError.WriteFailed → HasRisen (O.faults sink.old) (O.faults sink.new) }
    ensures sink_uncounted { result ≢ Err ServeError.WriteFailed → HasStayed (O.faults sink.old) (O.faults sink.new) }
    ensures sink_counted { HasNotFallen (O.faults sink.old) (O.faults sink.new) }

    // How often the source was asked: each read but the last gave a byte at least, and none was made once the limit was passed.
    ensures by_each { GivesByEach (S.left source.old) (S.left source.new) (S.asked source.old) (S.asked source.new) }
    ensures few_past { IsErrOf result ServeError.Exhausted → IsAskedAtMost (MAX_SESSION_BYTES + 1) (S.asked source.old) (S.asked source.new) }
{
    let Ok(mut lines) = LineReader::new(alloc) else {
        return Err(ServeError::Memory);
    };
    let mut next = next_command(&mut lines, source);
    while let Ok(Some(command)) = next {
        next = turn(alloc, brain, &command, &mut lines, source, sink);
    }
    ended(next)
}

/// How a session ends where no command is left, or with this error.
fn ended(next: Result<Option<Command>, ServeError>) -> Result<(), ServeError>
    ensures ok { IsOk result ↔ IsOk next }
    ensures failed { (e : ServeError) → IsErrOf result e ↔ IsErrOf next e }
{
    match next {
        Ok(_) => Ok(()),
        Err(error) => Err(error),
    }
}

/// One turn: the command is stepped and its answer written, and then the next command is read, unless the session ends.
fn turn<S: Source, O: Sink>(
    alloc: Global,
    brain: &mut Brain,
    command: &Command,
    lines: &mut LineReader,
    source: &mut S,
    sink: &mut O,
) -> Result<Option<Command>, ServeError>
    ensures turned { (answered : Result Bool ServeError)
        × AnswersCommand O.written O.faults O.asked answered command.now brain.old sink.old brain.new sink.new
        × GoesOn S.left S.last S.faults S.asked answered result lines.old source.old lines.new source.new }
    ensures in_turn { (command.now ≡ Command.End) ⊎ IsErrOf result ServeError.WriteFailed ⊎ IsErrOf result ServeError.Memory →
        source.new ≡ source.old }
{
    match answer(alloc, brain, command, sink) {
        Ok(true) => next_command(lines, source),
        Ok(false) => Ok(None),
        Err(error) => Err(error),
    }
}

/// The command of the next line, or none at the end of input.
fn next_command<S: Source>(
    lines: &mut LineReader,
    source: &mut S,
) -> Result<Option<Command>, ServeError>
    ensures read { ReadsCommand S.left S.last S.faults S.asked result lines.old source.old lines.new source.new }
{
    match lines.next(source) {
        Ok(line) => Ok(command_of_line(line, lines.text())),
        Err(ReadError::Failed) => Err(ServeError::ReadFailed),
        Err(ReadError::Exhausted) => Err(ServeError::Exhausted),
    }
}

/// The command of the line that was told, whose bytes these are, or none at the end of input.
fn command_of_line(line: Line, text: &[u8]) -> Option<Command>
    ensures told { option_to_list result ≡ map command_told (told_lines (Ok line) text.now) }
    ensures end { result ≡ None ↔ line ≡ Line.End }
{
    match line {
        Line::Text => Some(read_command(text)),
        Line::TooLong => Some(Command::Malformed),
        Line::End => None,
    }
}

/// Steps the command and writes the answer, if there is one, and answers whether the session goes on.
fn answer<O: Sink>(
    alloc: Global,
    brain: &mut Brain,
    command: &Command,
    sink: &mut O,
) -> Result<bool, ServeError>
    ensures answered { AnswersCommand O.written O.faults O.asked result command.now brain.old sink.old brain.new sink.new }
{
    match brain.step(command) {
        Ok(Reaction::Silent) => Ok(true),
        Ok(Reaction::Ends) => Ok(false),
        Ok(Reaction::Says(said)) => {
            let text = write_answer(alloc, &said);
            match sink.write(text.as_slice()) {
                Ok(()) => Ok(true),
                Err(_) => Err(ServeError::WriteFailed),
            }
        }
        Err(_) => Err(ServeError::Memory),
    }
}
