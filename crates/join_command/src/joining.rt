//! What the tables of files make of the position of the input: one table, by which its side to move wins with the attack.
//!
//! The nodes of the files go into one compiler, and the node of the attack answers each reply by the root of a file. The rest of it is the
//! root that answers most. Each root is accepted after its reply, so the whole is, and no walk over it is needed.
#![tactic(auto)]

ghost use Rattle.std.specs.Prelude.{◌≡◌, ◌≢◌, ◌<◌, ◌≤◌, ℕ, true, All, List, length, map, IfOk, string_bytes};
ghost use Rattle.std.specs.List.{AllByRecursion};
ghost use Rattle.game_rules.specs.Play.{after, outcome};
ghost use Rattle.game_rules.specs.declared.Outcome.TheVariants.{GoesOn};
ghost use Rattle.strategy_graph.specs.Tables.{TableOnBoard, is_rising};
ghost use Rattle.strategy_graph.specs.declared.TheConstants.{MAX_NODES};
ghost use Rattle.strategy_compiler.specs.Forks.{AnswersWin};
ghost use Rattle.strategy_compiler.specs.Nodes.{IsCompiled};
ghost use Rattle.strategy_compiler.specs.Wins.{IsWrittenWin};
ghost use Rattle.renju_io.specs.Faults.{HasNotFallen, HasStayed};
ghost use Rattle.renju_io.specs.Asked.{GivesByEach};
ghost use Rattle.command_base.specs.Statuses.{status_number};
ghost use Rattle.command_base.specs.Runs.{change, program_run};
ghost use Rattle.cover_command.specs.PartFiles.{ArePartNames};
ghost use Rattle.join_command.specs.Adopting.{AreAdopted, IsAcceptedFile};
ghost use Rattle.join_command.specs.Joins.{IsJoinRun, JoinedSays, no_answer_line, node_count};
ghost use Rattle.join_command.specs.Making.{IsNodeTold, IsTextOfNode};

use crate::adopting::adopt_files;
use crate::meeting::{Met, meet_each};
use command_base::{Answer, AtPosition, OfPosition, Status, deliver, full, tell};
use file_loading::{MAX_WORK, load_files};
use foul_judge::{Outcome, Position, Seen};
use game_referee::{judge, write_verdict};
use position_files::{TableFile, write_table};
use renju_io::{Shelf, Sink, Source};
use row_shapes::Rule;
use std::alloc::{AllocError, Global};
use stone_board::Point;
use strategy_compiler::{CompileError, Compiler};
use strategy_graph::{Reply, Root};
use text_lines::push_point;

/// `join ATTACK FILE ..`: the attack, and the names.
#[derive(Clone, Copy)]
pub struct Joining<'a> {
    /// The attack of the side to move.
    pub attack: Point,
    /// The names of the files.
    pub names: &'a [String],
}

/// The files, and the root of each in a compiler, if it has one there.
#[derive(Clone, Copy)]
struct Adopted<'a> {
    files: &'a [TableFile],
    roots: &'a [Option<u32>],
}

/// `join`, once the tables of the files are accepted.
#[derive(Drop)]
struct JoinFiles<'a> {
    attack: Point,
    files: &'a [TableFile],
}

impl<'a> AtPosition for JoinFiles<'a> {
    ghost use Rattle.std.specs.List.{AllByRecursion};
    ghost use Rattle.join_command.specs.Adopting.{IsAcceptedFile};
    ghost use Rattle.join_command.specs.Joins.{JoinSays};

    ghost in_range = { λ c. AllByRecursion IsAcceptedFile c.files.now };

    ghost says = { λ c. JoinSays c.attack c.files.now };

    fn say_at<R: Rule>(&self, alloc: Global, position: Position<R>) -> Result<Answer, AllocError> {
        let mut position = position;
        match position.outcome(self.attack) {
            Outcome::GoesOn => join_nodes(alloc, &position, self.attack, self.files),
            _ => {
                let verdict = judge(&mut position, &[self.attack]);
                Ok(Answer::written(Status::NotFound, write_verdict(alloc, &verdict)?))
            }
        }
    }
}

/// `join`: says what the tables of the files make of the position of the input, once each is accepted, and else writes why the earliest
/// that is not is none.
#[inline(never)]
pub fn join_with<I: Source, O: Sink, F: Shelf>(
    alloc: Global,
    joining: &Joining,
    input: &mut I,
    output: &mut O,
    shelf: &mut F,
) -> Status
    requires names { ArePartNames (map string_bytes joining.now.names.now) }
    ensures joins { (words : List (List ℕ)) → IsJoinRun joining.now.attack (map string_bytes joining.now.names.now)
        (program_run words (change I.left I.faults I.asked input.old input.new) (change O.written O.faults O.asked output.old output.new)
        (change F.files F.faults F.asked shelf.old shelf.new) (I.last input.new) (status_number result)) }
    ensures taken { GivesByEach (I.left input.old) (I.left input.new) (I.asked input.old) (I.asked input.new) }
    ensures input { HasNotFallen (I.faults input.old) (I.faults input.new) }
    ensures output { HasNotFallen (O.faults output.old) (O.faults output.new) }
    ensures shelf { HasNotFallen (F.faults shelf.old) (F.faults shelf.new) }
    ensures files { F.files shelf.new ≡ F.files shelf.old }
    ensures reads { status_number result ≢ status_number Status.ReadFault → HasStayed (I.faults input.old) (I.faults input.new) }
    ensures writes { status_number result ≢ status_number Status.WriteFault → HasStayed (O.faults output.old) (O.faults output.new) }
    ensures loads { status_number result ≢ status_number Status.ShelfFault → status_number result ≢ status_number Status.WriteFault
        → HasStayed (F.faults shelf.old) (F.faults shelf.new) }
{
    let mut files = Vec::new(alloc);
    match load_files(alloc, joining.names, MAX_WORK, &mut files, shelf) {
        Ok(None) => {
            let command = OfPosition(JoinFiles {
                attack: joining.attack,
                files: files.as_slice(),
            });
            tell(alloc, &command, input, output)
        }
        Ok(Some(answer)) => deliver(answer.status, answer.text.as_slice(), output),
        Err(_) => Status::Memory,
    }
}

/// What is said of the position where the attack goes on.
fn join_nodes<R: Rule>(
    alloc: Global,
    position: &Position<R>,
    at: Point,
    files: &[TableFile],
) -> Result<Answer, AllocError>
    requires goes_on { outcome R.KIND position.now at ≡ GoesOn }
    requires accepted { AllByRecursion IsAcceptedFile files.now }
    ensures says { IfOk result (λ answer. JoinedSays files.now (record { kind = R.KIND; board = position.now }) at
        answer.status answer.text) }
{
    let mut nodes = Compiler::new(alloc);
    match adopt_files(alloc, &mut nodes, position.board(), files) {
        Ok(roots) => {
            let adopted = Adopted {
                files,
                roots: roots.as_slice(),
            };
            join_replies(alloc, position, at, adopted, nodes)
        }
        Err(CompileError::Full) => Ok(full()),
        Err(CompileError::Memory) => Err(AllocError),
    }
}

/// What is said of the position where the attack goes on, and the tables of the files are in the compiler with these roots.
fn join_replies<R: Rule>(
    alloc: Global,
    position: &Position<R>,
    at: Point,
    adopted: Adopted,
    nodes: Compiler,
) -> Result<Answer, AllocError>
    requires goes_on { outcome R.KIND position.now at ≡ GoesOn }
    requires accepted { AllByRecursion IsAcceptedFile adopted.files.now }
    requires roots { AreAdopted position.now nodes adopted.files.now adopted.roots.now }
    requires compiled { IsCompiled nodes }
    requires on_board { TableOnBoard position.now nodes }
    requires few { length nodes ≤ node_count adopted.files.now }
    ensures says { IfOk result (λ answer. JoinedSays adopted.entry.files.now (record { kind = R.KIND; board = position.now }) at
        answer.status answer.text) }
{
    let mut later = position.copy()?;
    later.play(at);
    match meet_each(alloc, adopted.files, adopted.roots, &mut later)? {
        Met::Each(answers) => node_text(alloc, position, at, answers.as_slice(), nodes),
        Met::Open(q) => no_answer(alloc, q),
    }
}

/// The table of the node that plays the attack and has these answers, as a text.
fn node_text<R: Rule>(
    alloc: Global,
    position: &Position<R>,
    at: Point,
    answers: &[Reply],
    nodes: Compiler,
) -> Result<Answer, AllocError>
    requires goes_on { outcome R.KIND position.now at ≡ GoesOn }
    requires rising { is_rising answers.now ≡ true }
    requires below { All (λ r. r.next < length nodes) answers.now }
    requires wins { AnswersWin R.KIND MAX_NODES (after position.now at) nodes answers.now }
    ensures told { IfOk result (λ answer. IsNodeTold nodes at answers.now (record { kind = R.KIND; board = position.now })
        answer.status answer.text) }
{
    let mut nodes = nodes;
    match nodes.node(at, answers) {
        Ok(root) => table_text(alloc, position, nodes, root),
        Err(CompileError::Full) => Ok(full()),
        Err(CompileError::Memory) => Err(AllocError),
    }
}

/// The table of a node that wins at the position, as a text.
fn table_text<R: Rule>(
    alloc: Global,
    position: &Position<R>,
    nodes: Compiler,
    root: u32,
) -> Result<Answer, AllocError>
    requires win { (limit : ℕ) × (moves : ℕ) × IsWrittenWin R.KIND limit position.now nodes (record { node = root; moves = moves }) }
    ensures status { IfOk result (λ answer. answer.status ≡ Status.Done) }
    ensures text { IfOk result (λ answer. IsTextOfNode nodes root (record { kind = R.KIND; board = position.now }) answer.text) }
{
    let table = nodes.finish(root)?;
    let last = table.len() - 1;
    let moves = table.depth(last)?;
    let bytes = write_table(
        alloc,
        R::KIND,
        position.board(),
        &table,
        &Root::Attack(last),
        moves,
    )?;
    Ok(Answer::written(Status::Done, bytes))
}

/// The answer that tells a reply that no file answers.
fn no_answer(alloc: Global, at: Point) -> Result<Answer, AllocError>
    ensures status { IfOk result (λ answer. answer.status ≡ Status.NotFound) }
    ensures text { IfOk result (λ answer. answer.text ≡ no_answer_line at) }
{
    let mut text = String::from_str(alloc, "no answer ")?;
    push_point(&mut text, at)?;
    text.push_str("\n")?;
    Ok(Answer::told(Status::NotFound, text))
}
