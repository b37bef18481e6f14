//! Commands that are told: one reads its whole input, says a status and a text of it, and writes the text.
//!
//! The commands differ in what they say; how they read, write and fail is proved here once for all of them. What a command
//! says is a relation that its type names, so nothing here depends on which commands there are.
#![tactic(auto)]

ghost use Rattle.std.specs.Prelude.{◌≢◌, ℕ, List, IfOk};
ghost use Rattle.renju_io.specs.Faults.{HasNotFallen, HasStayed};
ghost use Rattle.renju_io.specs.Asked.{GivesByEach};
ghost use Rattle.command_base.specs.declared.status.Status.{Status};
ghost use Rattle.command_base.specs.Statuses.{status_number};
ghost use Rattle.command_base.specs.Runs.{change, IsDelivered};
ghost use Rattle.command_base.specs.Told.{EndsTold};

use crate::Status;
use crate::answer::{Answer, TOO_LONG};
use renju_io::{ReadAllError, Sink, Source, read_all, write_text};
use std::alloc::{AllocError, Global};

/// A command that is told its whole input.
pub trait Told {
    /// What has to hold of its numbers.
    ghost in_range: { Self → Type 0 };

    /// The statuses and texts that it says of an input.
    ghost says: { Self → List ℕ → Status → List ℕ → Type 0 };

    /// What it says of an input that was read whole.
    fn say(&self, alloc: Global, bytes: &[u8]) -> Result<Answer, AllocError>
        requires in_range { in_range self.now }
        ensures says { IfOk result (λ answer. says self.now bytes.now answer.status answer.text) };
}

/// Reads the input, and writes what the command says of it. Nothing is written before the input was read to its end.
// Commands are not inlined, so that none has the locals of all others on its stack.
#[inline(never)]
pub fn tell<C: Told, I: Source, O: Sink>(
    alloc: Global,
    command: &C,
    input: &mut I,
    output: &mut O,
) -> Status
    requires in_range { C.in_range command.now }
    ensures ends { EndsTold (C.says command.now) (change I.left I.faults I.asked input.old input.new)
        (change O.written O.faults O.asked output.old output.new) (status_number result) }
    ensures taken { GivesByEach (I.left input.old) (I.left input.new) (I.asked input.old) (I.asked input.new) }
    ensures input { HasNotFallen (I.faults input.old) (I.faults input.new) }
    ensures output { HasNotFallen (O.faults output.old) (O.faults output.new) }
    ensures reads { status_number result ≢ status_number Status.ReadFault → HasStayed (I.faults input.old) (I.faults input.new) }
    ensures writes { status_number result ≢ status_number Status.WriteFault → HasStayed (O.faults output.old) (O.faults output.new) }
{
    match read_all(alloc, input) {
        Ok(bytes) => match command.say(alloc, bytes.as_slice()) {
            Ok(answer) => deliver(answer.status, answer.text.as_slice(), output),
            Err(_) => Status::Memory,
        },
        Err(ReadAllError::TooLong) => deliver(Status::TooLong, TOO_LONG.as_bytes(), output),
        Err(ReadAllError::Failed) => Status::ReadFault,
        Err(ReadAllError::Memory) => Status::Memory,
    }
}

/// Writes a text, and answers its status, or that of a write fault.
pub fn deliver<O: Sink>(status: Status, text: &[u8], output: &mut O) -> Status
    ensures delivered { IsDelivered status text.now (change O.written O.faults O.asked output.old output.new) (status_number result) }
    ensures counted { HasNotFallen (O.faults output.old) (O.faults output.new) }
    ensures writes { status_number result ≢ status_number Status.WriteFault → HasStayed (O.faults output.old) (O.faults output.new) }
{
    match write_text(output, text) {
        Ok(()) => status,
        Err(_) => Status::WriteFault,
    }
}
