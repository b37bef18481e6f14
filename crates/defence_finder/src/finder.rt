//! The finder: one walk over the points of the board, on one view.
//!
//! A move that wins or fills the board holds, and one that fouls is none. Where the attacker has a five point that the move does
//! not take, it wins with the least of these, so no search is made. Only after each other move that goes on are continuous
//! fours searched, and what these searches remember serves all of them.
#![tactic(auto)]

ghost use Rattle.std.specs.Prelude.{◌≡◌, ◌≤◌, ◌*◌, [], IfOk, IfSome, OnOk, Some};
ghost use Rattle.std.specs.List.{find};
ghost use Rattle.game_rules.specs.Grid.{Grid, points_of};
ghost use Rattle.game_rules.specs.Shapes.{five as five_lem};
ghost use Rattle.game_rules.specs.Play.{IsPosition, outcome as outcome_lem, mover, other, after};
ghost use Rattle.game_rules.specs.Games.{five_points as five_points_lem};
ghost use Rattle.game_rules.specs.declared.RuleKind.{RuleKind};
ghost use Rattle.strategy_compiler.specs.Nodes.{IsCompiled};
ghost use Rattle.strategy_compiler.specs.Growth.{Writes};
ghost use Rattle.four_search.specs.declared.TheConstants.{MAX_DEPTH};
ghost use Rattle.defence_finder.specs.Defences.{defences_of, first_spent};
ghost use Rattle.defence_finder.specs.Answers.{OnKnown, AreBeaten, spent_at, nodes_after, most_nodes};
ghost use Rattle.defence_finder.specs.Finding.{IsAdded, IsAsked, IsToldAt, IsVerdict, IsWalked};

use foul_judge::{Outcome, Seen};
use four_search::{FourAnswer, FourMemory, four_search_with};
use row_shapes::Rule;
use std::alloc::{AllocError, Global};
use stone_board::{Point, Points};
use strategy_compiler::{Compiler, SearchError};
use strategy_graph::{Replies, Reply};
use threat_moves::fives;

/// Which moves hold against continuous fours.
#[derive(Debug, Drop)]
pub enum DefenceAnswer {
    /// All moves that hold, in reading order, and all others that go on, in reading order too, each with the node that
    /// wins after it.
    Known { good: Points, bad: Replies },
    /// There are more positions to look at after this move than the budget. It is the first such move.
    Spent { at: Point },
}

/// What is asked of each move: whether the other side, which has these five points before it, wins by fours within so many moves, and
/// how many positions may be looked at.
#[derive(Drop)]
struct Question {
    depth: u32,
    budget: u64,
    fives: Points,
}

/// The moves that hold and those that are beaten, of the points so far.
#[derive(Drop)]
struct Found {
    good: Points,
    bad: Replies,
}

impl Found {
    /// Adds the point `q` where it belongs by what is known of it.
    fn add(&mut self, q: Point, verdict: Verdict) -> Result<(), AllocError>
        ensures added { OnOk result (IsAdded self.old self.new q verdict) }
    {
        match verdict {
            Verdict::NoReply | Verdict::Spent => Ok(()),
            Verdict::Holds => self.good.push(q),
            Verdict::Beaten(next) => self.bad.push(Reply { at: q, next }),
        }
    }
}

/// What is known of a point as a move.
#[derive(Clone, Copy)]
enum Verdict {
    /// It is no move, or a foul.
    NoReply,
    /// It holds.
    Holds,
    /// The other side wins after it, with this node.
    Beaten(u32),
    /// There are more positions to look at after it than the budget.
    Spent,
}

/// Finds the moves of the side to move after which the other side has no win by continuous fours within `depth` moves, 1 to
/// `MAX_DEPTH`. A move that wins or fills the board holds, and a foul does not. After each move that goes on at most `budget`
/// positions are looked at, at least 1, which are counted as `four_search` counts them.
///
/// - `Known` has all moves that hold, and all others that go on, each with a node of the compiler that wins after it within
///   `depth` moves and names points of the board alone.
/// - `Spent` comes exactly where the budget does not suffice after some move that goes on, and tells the first such move.
///
/// `Full` comes only where the compiler has no room for two nodes a move after each empty point; `Memory` where there is no
/// memory. After each answer and refusal the view is as before, and the compiler's earlier nodes stay.
pub fn defences<R: Rule, V: Seen<R>>(
    alloc: Global,
    view: &mut V,
    depth: u32,
    budget: u64,
    compiler: &mut Compiler,
) -> Result<DefenceAnswer, SearchError>
    requires some_depth { 1 ≤ depth }
    requires depth_fits { depth ≤ MAX_DEPTH }
    requires some_budget { 1 ≤ budget }
    ensures good { IfOk result
        (λ a. OnKnown a (λ good bad. good ≡ defences_of R.KIND depth (V.position view.old))) }
    ensures bad { IfOk result
        (λ a. OnKnown a (λ good bad. AreBeaten R.KIND depth (V.position view.old) compiler.new bad)) }
    ensures spent { IfOk result
        (λ a. spent_at a ≡ first_spent R.KIND depth budget (V.position view.old)) }

    // The nodes that are added, what a refusal leaves, and when the compiler is full.
    ensures writes { Writes compiler.old compiler.new (most_nodes depth (V.position view.old)) result }
    ensures same { V.position view.new ≡ V.position view.old }
{
    let attacker = view.side().other();
    let fives = fives::<R, V>(alloc, view, attacker)?;
    let question = Question {
        depth,
        budget,
        fives,
    };
    judge_all::<R, V>(alloc, view, &question, compiler)
}

/// Which moves hold, by what is asked of each.
fn judge_all<R: Rule, V: Seen<R>>(
    alloc: Global,
    view: &mut V,
    question: &Question,
    compiler: &mut Compiler,
) -> Result<DefenceAnswer, SearchError>
    requires asked { IsAsked R.KIND (V.position view.old) question.now }
    ensures told { IfOk result
        (IsToldAt R.KIND question.now.depth question.now.budget (V.position view.old) compiler.new) }
    ensures writes { Writes compiler.old compiler.new (most_nodes question.now.depth (V.position view.old)) result }
    ensures same { V.position view.new ≡ V.position view.old }
{
    let mut memory = FourMemory::new(alloc);
    let mut found = Found {
        good: Points::new(alloc),
        bad: Replies::new(alloc),
    };
    match walk::<R, V>(alloc, view, question, &mut memory, &mut found, compiler)? {
        Some(at) => Ok(DefenceAnswer::Spent { at }),
        None => Ok(DefenceAnswer::Known {
            good: found.good,
            bad: found.bad,
        }),
    }
}

/// Judges one point after another, and answers the first after which there are more positions than the budget, if there is one.
fn walk<R: Rule, V: Seen<R>>(
    alloc: Global,
    view: &mut V,
    question: &Question,
    memory: &mut FourMemory<R>,
    found: &mut Found,
    compiler: &mut Compiler,
) -> Result<Option<Point>, SearchError>
    requires asked { IsAsked R.KIND (V.position view.old) question.now }
    requires no_good { found.old.good ≡ [] }
    requires no_bad { found.old.bad ≡ [] }
    ensures walked { IfOk result (IsWalked R.KIND question.now.depth question.now.budget (V.position view.old) compiler.new found.new) }
    ensures writes { Writes compiler.old compiler.new (most_nodes question.now.depth (V.position view.old)) result }
    ensures same { V.position view.new ≡ V.position view.old }
{
    // For what is known of its nodes.
    compiler.len();
    for q in view.board().points() {
        match judge::<R, V>(alloc, view, q, question, memory, compiler)? {
            Verdict::Spent => return Ok(Some(q)),
            verdict => found.add(q, verdict)?,
        }
    }
    Ok(None)
}

/// What is known of the point `q` as a move.
fn judge<R: Rule, V: Seen<R>>(
    alloc: Global,
    view: &mut V,
    q: Point,
    question: &Question,
    memory: &mut FourMemory<R>,
    compiler: &mut Compiler,
) -> Result<Verdict, SearchError>
    requires asked { IsAsked R.KIND (V.position view.old) question.now }
    requires compiled { IsCompiled compiler.old }
    ensures verdict { IfOk result
        (IsVerdict R.KIND question.now.depth question.now.budget (V.position view.old) compiler.new q) }
    ensures writes { Writes compiler.old compiler.new (nodes_after question.now.depth (V.position view.old) q) result }
    ensures same { V.position view.new ≡ V.position view.old }
{
    match view.outcome(q) {
        Outcome::Refused | Outcome::Fouls(_) => Ok(Verdict::NoReply),
        Outcome::Wins | Outcome::Draws => Ok(Verdict::Holds),
        Outcome::GoesOn => match five_left(question.fives.as_slice(), q) {
            Some(five) => Ok(Verdict::Beaten(compiler.leaf(five)?)),
            None => judge_after::<R, V>(alloc, view, q, question, memory, compiler),
        },
    }
}

/// The least five point that the move `q` leaves the other side, if these are its five points and one is left.
fn five_left(fives: &[Point], q: Point) -> Option<Point>
    ensures left { (rule : RuleKind) (b : Grid) → IsPosition rule b → outcome_lem rule b q ≡ Outcome.GoesOn
        → fives.now ≡ five_points_lem rule b (other (mover b))
        → IfSome result (λ w. find (five_lem rule (after b q) (mover (after b q))) (points_of (after b q)) ≡ Some w) }
{
    let (first, others) = fives.split_first()?;
    if first.is(q) {
        others.first().copied()
    } else {
        Some(*first)
    }
}

/// What is known of the move `q`, which goes on, by a search after it.
fn judge_after<R: Rule, V: Seen<R>>(
    alloc: Global,
    view: &mut V,
    q: Point,
    question: &Question,
    memory: &mut FourMemory<R>,
    compiler: &mut Compiler,
) -> Result<Verdict, SearchError>
    requires goes_on { outcome_lem R.KIND (V.position view.old) q ≡ Outcome.GoesOn }
    requires some_depth { 1 ≤ question.now.depth }
    requires depth_fits { question.now.depth ≤ MAX_DEPTH }
    requires some_budget { 1 ≤ question.now.budget }
    ensures verdict { IfOk result
        (IsVerdict R.KIND question.now.depth question.now.budget (V.position view.old) compiler.new q) }
    ensures writes { Writes compiler.old compiler.new (2 * question.now.depth) result }
    ensures same { V.position view.new ≡ V.position view.old }
{
    view.play(q);
    let found = four_search_with::<R, V>(
        alloc,
        view,
        question.depth,
        question.budget,
        memory,
        compiler,
    );
    view.undo(q);
    // For what is known of its nodes.
    compiler.len();
    match found? {
        FourAnswer::Win(win) => Ok(Verdict::Beaten(win.node)),
        FourAnswer::None => Ok(Verdict::Holds),
        FourAnswer::Spent => Ok(Verdict::Spent),
    }
}
