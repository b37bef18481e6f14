//! The command `defend`: the moves that hold against continuous fours, or a table of the other side's win where none does.
//!
//! The text is read, and the finder runs under its rule within the depth and the budget. The moves that hold are listed. Where
//! there is none, the nodes that answer all moves make a start, and its table is one that `check` accepts.
#![tactic(auto)]

ghost use Rattle.std.specs.Prelude.{◌≡◌, ◌≤◌, [], ℕ, length, IfOk};
ghost use Rattle.game_rules.specs.Play.{IsPosition};
ghost use Rattle.defence_finder.specs.Defences.{defences_of};
ghost use Rattle.defence_finder.specs.Answers.{AreBeaten, most_nodes};
ghost use Rattle.defence_finder.specs.Lines.{defences_text};
ghost use Rattle.command_base.specs.Positions.{file_at};
ghost use Rattle.position_commands.specs.Fours.{AreLimits};
ghost use Rattle.position_commands.specs.Defends.{DefenceSays, IsLostText, LostTextIsOne, spent_after_line};

use command_base::{Answer, AtPosition, Status};
use defence_finder::{DefenceAnswer, defences, write_defences};
use foul_judge::Position;
use four_search::MAX_DEPTH;
use game_rules::RuleKind;
use line_tables::LineTables;
use position_files::write_table;
use row_shapes::Rule;
use std::alloc::{AllocError, Global};
use stone_board::{Board, Point, Points};
use strategy_compiler::{Compiler, SearchError};
use strategy_graph::{Replies, Root};
use text_lines::push_spaced_point;

/// `defend DEPTH NODES`.
#[derive(Clone, Copy)]
pub struct Defend {
    /// The most moves, from 1 to `MAX_DEPTH`.
    pub depth: u32,
    /// The most positions to look at, from 1 to `MAX_SEARCHED`.
    pub nodes: u64,
}

impl AtPosition for Defend {
    ghost use Rattle.position_commands.specs.Fours.{AreLimits};
    ghost use Rattle.position_commands.specs.Defends.{DefenceSays};

    ghost in_range = { λ c. AreLimits c.depth c.nodes };

    ghost says = { λ c. DefenceSays c.depth c.nodes };

    fn say_at<R: Rule>(&self, alloc: Global, position: Position<R>) -> Result<Answer, AllocError> {
        search_defences(
            alloc,
            LineTables::over(alloc, position),
            self.depth,
            self.nodes,
        )
    }
}

/// What is said of a position.
fn search_defences<R: Rule>(
    alloc: Global,
    position: LineTables<R>,
    depth: u32,
    nodes: u64,
) -> Result<Answer, AllocError>
    requires lawful { IsPosition R.KIND position }
    requires limits { AreLimits depth nodes }
    ensures says { IfOk result (λ answer. DefenceSays depth nodes (file_at R.KIND position) answer.status answer.text) }
{
    let mut view = position;
    let mut compiler = Compiler::new(alloc);
    match defences::<R, LineTables<R>>(alloc, &mut view, depth, nodes, &mut compiler) {
        Ok(DefenceAnswer::Known { good, bad }) => {
            if good.len() > 0 {
                return listed(alloc, &good);
            }
            let board = view.into_position().into_board();
            lost(alloc, R::KIND, &board, compiler, &bad)
        }
        Ok(DefenceAnswer::Spent { at }) => spent_after(alloc, at),
        Err(SearchError::Full) => unreachable!(),
        Err(SearchError::Memory) => Err(AllocError),
    }
}

/// The list of the moves that hold.
fn listed(alloc: Global, good: &Points) -> Result<Answer, AllocError>
    ensures status { IfOk result (λ answer. answer.status ≡ Status.Done) }
    ensures text { IfOk result (λ answer. answer.text ≡ defences_text good.now) }
{
    Ok(Answer::written(Status::Done, write_defences(alloc, good)?))
}

/// The table of the other side's win, as a text, where no move holds and these answer all that go on. It is no longer than the
/// compiler.
fn lost(
    alloc: Global,
    kind: RuleKind,
    board: &Board,
    compiler: Compiler,
    bad: &Replies,
) -> Result<Answer, AllocError>
    requires beaten { (limit : ℕ) × (limit ≤ MAX_DEPTH) × (defences_of kind limit board.now ≡ [])
        × AreBeaten kind limit board.now compiler bad.now }
    ensures status { IfOk result (λ answer. answer.status ≡ Status.Done) }
    ensures text { IfOk result (λ answer. (limit : ℕ) → defences_of kind limit board.now ≡ []
        → AreBeaten kind limit board.now compiler bad.now → length compiler ≤ most_nodes limit board.now
        → IsLostText limit (record { kind = kind; board = board.now }) answer.text) }
{
    let (table, start) = compiler.finish_start(bad.as_slice())?;
    let moves = table.start_depth(&start)?;
    let root = Root::Defend(start);
    let bytes = write_table(alloc, kind, board, &table, &root, moves)?;
    Ok(Answer::written(Status::Done, bytes))
}

/// The answer where the budget is not enough after this move.
fn spent_after(alloc: Global, at: Point) -> Result<Answer, AllocError>
    ensures status { IfOk result (λ answer. answer.status ≡ Status.Spent) }
    ensures text { IfOk result (λ answer. answer.text ≡ spent_after_line at) }
{
    let mut text = String::from_str(alloc, "spent")?;
    push_spaced_point(&mut text, at)?;
    text.push_str("\n")?;
    Ok(Answer::told(Status::Spent, text))
}

/// Where no move holds, the text that is written is a function of the position and the depth.
pub fn lost_text_is_one()
    ensures one { LostTextIsOne }
{}
