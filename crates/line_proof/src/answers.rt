//! The answers to the replies at a position, and the node that has them.
//!
//! Each answer is a node of the compiler that wins at the position after its reply. Once all replies that go on have one, they
//! make the node of the move before them.
#![tactic(auto)]

ghost use Rattle.std.specs.Prelude.{◌≡◌, ◌<◌, ◌++◌, ◌∷◌, [], ℕ, suc, max, true, Bool, All, length, IfOk, OnOk};
ghost use Rattle.game_rules.specs.Grid.{Grid};
ghost use Rattle.game_rules.specs.Play.{outcome, after};
ghost use Rattle.game_rules.specs.declared.RuleKind.{RuleKind};
ghost use Rattle.game_rules.specs.declared.Outcome.TheVariants.{GoesOn};
ghost use Rattle.strategy_graph.specs.Tables.{is_rising};
ghost use Rattle.strategy_compiler.specs.Growth.{Writes};
ghost use Rattle.strategy_compiler.specs.Wins.{IsWrittenWin};
ghost use Rattle.line_proof.specs.declared.TheConstants.{MAX_DEPTH};
ghost use Rattle.line_proof.specs.Lines.{each_loses};
ghost use Rattle.line_proof.specs.Replies.{AnswersAll};

use crate::SearchError;
use std::alloc::AllocError;
use stone_board::Point;
use strategy_compiler::{Compiler, WrittenWin};
use strategy_graph::Reply;

/// The answers to some replies, and the most moves that one of them takes.
#[derive(Drop)]
pub(crate) struct Answering {
    pub(crate) replies: Vec<Reply>,
    pub(crate) moves: u32,
}

/// Adds the answer to one more reply.
pub(crate) fn add(answers: &mut Answering, at: Point, win: WrittenWin) -> Result<(), AllocError>
    ensures added { OnOk result (answers.new.replies.items ≡ answers.old.replies.items ++ (record { at = at; next = win.node }) ∷ []) }
    ensures most { OnOk result (answers.new.moves ≡ max answers.old.moves win.moves) }
{
    answers.replies.push(Reply { at, next: win.node })?;
    answers.moves = answers.moves.max(win.moves);
    Ok(())
}

/// The win whose node plays `p` and has these answers, which are to all replies that go on.
pub(crate) fn fork(
    p: Point,
    answers: &Answering,
    compiler: &mut Compiler,
) -> Result<WrittenWin, SearchError>
    requires rising { is_rising answers.now.replies.items ≡ true }
    requires below { All (λ r. r.next < length compiler.old) answers.now.replies.items }
    requires few_moves { answers.now.moves < MAX_DEPTH }
    ensures win { IfOk result (λ win. (rule : RuleKind) (n : ℕ) (b : Grid) (won : Grid → Bool)
        → outcome rule b p ≡ GoesOn → each_loses rule (after b p) won ≡ true → AnswersAll rule n compiler.old (after b p) answers.now
        → IsWrittenWin rule (suc n) b compiler.new win) }
    ensures writes { Writes compiler.old compiler.new 1 result }
{
    let node = compiler.fork(p, answers.replies.as_slice())?;
    Ok(WrittenWin {
        node,
        moves: answers.moves + 1,
    })
}
