//! The proof of a line, compiled from the bottom up.
//!
//! The attacker's side is a walk along the threats with one move at each position; the defender's side tries all moves. A
//! node is put in once each of its replies has one, so a line that fails leaves no node of the moves above the failure.
#![tactic(auto)]

ghost use Rattle.std.specs.Prelude.{◌≡◌, ◌↔◌, ◌≤◌, ◌<◌, ◌+◌, ◌++◌, List, Some, min, suc, false, if◌then◌else◌, length, IfOk, IfSome, OnOk, IsErrOf};
ghost use Rattle.game_rules.specs.Play.{outcome as outcome_lem, after};
ghost use Rattle.game_rules.specs.Games.{wins_by_fours, if_goes_on, behind_replies};
ghost use Rattle.strategy_graph.specs.declared.Node.{Node};
ghost use Rattle.strategy_graph.specs.declared.TheConstants.{MAX_NODES};
ghost use Rattle.strategy_compiler.specs.Nodes.{IsCompiled};
ghost use Rattle.strategy_compiler.specs.Wins.{IsWrittenWin};
ghost use Rattle.strategy_compiler.specs.Growth.{GrowsBy, Writes};
ghost use Rattle.line_proof.specs.declared.TheConstants.{MAX_DEPTH};
ghost use Rattle.line_proof.specs.Lines.{line_wins, line_tree, first_gain, block_of, each_loses, move_wins, behind_line_move};
ghost use Rattle.line_proof.specs.Replies.{AreAnswers, FindsAnswers, IsAnswered};
ghost use Rattle.line_proof.specs.Answers.{OnProved, IsTold, IsQuick};
ghost use Rattle.line_proof.specs.Doubles.{IsDouble};

use crate::answers::{Answering, add, fork};
use crate::doubles::{DoubleThreat, double_win};
use crate::fives::five_win;
use foul_judge::{Outcome, Seen};
use four_search::{FourAnswer, four_search};
use row_shapes::Rule;
use std::alloc::{AllocError, Global};
use stone_board::Point;
use strategy_compiler::{Compiler, SearchError, WrittenWin};
use threat_moves::{Threat, Threats, fives};

/// What the proof of a line finds.
#[derive(Clone, Copy, Debug, PartialEq, Eq)]
pub enum LineAnswer {
    /// The line wins.
    Proved(WrittenWin),
    /// It does not win within so many moves.
    Fails,
}

/// What is left of a line: the threats whose gains are still to come, within so many moves of the attacker.
#[derive(Clone, Copy)]
struct LineLeft<'a> {
    /// Where its answers take memory.
    alloc: Global,
    threats: &'a [Threat],
    moves: u32,
}

/// What may win after a reply, tried before a search.
#[derive(Clone, Copy)]
struct Hints {
    /// A five point that the attacker had before the replies.
    five: Option<Point>,
    /// A double threat that won after an earlier reply, compiled.
    double: Option<DoubleThreat>,
}

/// Proves that the side to move wins along the gains of these threats within `depth` moves, 1 to `MAX_DEPTH`, whatever the
/// replies. At each position two continuous fours come first, then the least five point of the other side, and then the
/// next gain.
///
/// - `Proved` comes exactly where the line wins. The node is accepted, and its depth is the number of moves.
/// - `Fails` comes exactly where it does not.
///
/// `Full` comes only where the compiler has no room for as many nodes as the line has positions; `Memory` where there is no
/// memory. After each answer and refusal the view is as before, and the compiler's earlier nodes stay.
pub fn prove_line<R: Rule, V: Seen<R>>(
    alloc: Global,
    view: &mut V,
    sequence: &Threats,
    depth: u32,
    compiler: &mut Compiler,
) -> Result<LineAnswer, SearchError>
    requires some_depth { 1 ≤ depth }
    requires depth_fits { depth ≤ MAX_DEPTH }
    ensures proved { IfOk result (λ a. OnProved a (IsWrittenWin R.KIND depth (V.position view.old) compiler.new)) }
    ensures fails { IfOk result (λ a. (a ≡ LineAnswer.Fails) ↔ (line_wins R.KIND sequence.now depth (V.position view.old) ≡ false)) }
    ensures kept { (more : List Node) × (compiler.new ≡ compiler.old ++ more) }
    ensures added { GrowsBy compiler.old compiler.new (line_tree R.KIND sequence.now depth (V.position view.old)) }
    ensures full { IsErrOf result SearchError.Full → MAX_NODES < length compiler.old + line_tree R.KIND sequence.now depth (V.position view.old) }
    ensures full_now { IsErrOf result SearchError.Full → length compiler.new ≡ MAX_NODES }
    ensures same { V.position view.new ≡ V.position view.old }
{
    // This tells what holds of every compiler.
    compiler.len();
    let whole = LineLeft {
        alloc,
        threats: sequence.as_slice(),
        moves: depth,
    };
    prove::<R, V>(view, whole, compiler)
}

/// The same of a line of at least one move.
fn prove<R: Rule, V: Seen<R>>(
    view: &mut V,
    line: LineLeft,
    compiler: &mut Compiler,
) -> Result<LineAnswer, SearchError>
    requires some { 1 ≤ line.moves }
    requires fits { line.moves ≤ MAX_DEPTH }
    requires compiled { IsCompiled compiler.old }
    ensures told { IfOk result (IsTold R.KIND line.entry.moves (V.position view.old) compiler.new
        (line_wins R.KIND line.entry.threats.now line.entry.moves (V.position view.old))) }
    ensures writes { Writes compiler.old compiler.new (line_tree R.KIND line.entry.threats.now line.entry.moves (V.position view.old)) result }
    ensures same { V.position view.new ≡ V.position view.old }
{
    match quick_win::<R, V>(line.alloc, view, line.moves, compiler)? {
        Some(win) => Ok(LineAnswer::Proved(win)),
        None => prove_slow::<R, V>(view, line, compiler),
    }
}

/// A win by continuous fours within two of so many moves, which are at least 1.
fn quick_win<R: Rule, V: Seen<R>>(
    alloc: Global,
    view: &mut V,
    moves: u32,
    compiler: &mut Compiler,
) -> Result<Option<WrittenWin>, SearchError>
    requires some { 1 ≤ moves }
    requires compiled { IsCompiled compiler.old }
    ensures found { IfOk result (IsQuick R.KIND moves (V.position view.old) compiler.old compiler.new) }
    ensures writes { Writes compiler.old compiler.new (if wins_by_fours R.KIND (min moves 2) (V.position view.old) then 4 else 0) result }
    ensures same { V.position view.new ≡ V.position view.old }
{
    // This tells that the position is lawful.
    view.side();
    let found = four_search::<R, V>(alloc, view, moves.min(2), u64::MAX, compiler)?;
    // This tells what holds of every compiler.
    compiler.len();
    match found {
        FourAnswer::Win(win) => Ok(Some(win)),
        FourAnswer::None => Ok(None),
        FourAnswer::Spent => unreachable!(),
    }
}

/// The same after a reply. The five point that the attacker had before it is tried first, and then a double threat that won after an
/// earlier reply, before a search.
fn quick_reply<R: Rule, V: Seen<R>>(
    alloc: Global,
    view: &mut V,
    moves: u32,
    hints: &mut Hints,
    compiler: &mut Compiler,
) -> Result<Option<WrittenWin>, SearchError>
    requires some { 1 ≤ moves }
    requires compiled { IsCompiled compiler.old }
    requires hint { IfSome hints.old.double (IsDouble (V.position view.old).width (V.position view.old).height compiler.old) }
    ensures found { IfOk result (IsQuick R.KIND moves (V.position view.old) compiler.old compiler.new) }
    ensures hint { OnOk result (IfSome hints.new.double (IsDouble (V.position view.old).width (V.position view.old).height compiler.new)) }
    ensures writes { Writes compiler.old compiler.new (if wins_by_fours R.KIND (min moves 2) (V.position view.old) then 4 else 0) result }
    ensures same { V.position view.new ≡ V.position view.old }
{
    match five_win::<R, V>(view, hints.five, compiler)? {
        Some(win) => Ok(Some(win)),
        None => quick_double::<R, V>(alloc, view, moves, &mut hints.double, compiler),
    }
}

/// The same without a five point to try.
fn quick_double<R: Rule, V: Seen<R>>(
    alloc: Global,
    view: &mut V,
    moves: u32,
    hint: &mut Option<DoubleThreat>,
    compiler: &mut Compiler,
) -> Result<Option<WrittenWin>, SearchError>
    requires some { 1 ≤ moves }
    requires compiled { IsCompiled compiler.old }
    requires hint { IfSome hint.old (IsDouble (V.position view.old).width (V.position view.old).height compiler.old) }
    ensures found { IfOk result (IsQuick R.KIND moves (V.position view.old) compiler.old compiler.new) }
    ensures hint { OnOk result (IfSome hint.new (IsDouble (V.position view.old).width (V.position view.old).height compiler.new)) }
    ensures writes { Writes compiler.old compiler.new (if wins_by_fours R.KIND (min moves 2) (V.position view.old) then 4 else 0) result }
    ensures same { V.position view.new ≡ V.position view.old }
{
    if moves < 2 {
        return quick_win::<R, V>(alloc, view, moves, compiler);
    }
    match double_win::<R, V>(alloc, view, hint, compiler)? {
        Some(win) => Ok(Some(win)),
        None => quick_win::<R, V>(alloc, view, moves, compiler),
    }
}

/// The same where there is no win by continuous fours within two of the moves: by the block, or else by the first gain.
#[cycle(line)]
fn prove_slow<R: Rule, V: Seen<R>>(
    view: &mut V,
    line: LineLeft,
    compiler: &mut Compiler,
) -> Result<LineAnswer, SearchError>
    requires some { 1 ≤ line.moves }
    requires fits { line.moves ≤ MAX_DEPTH }
    requires slow { wins_by_fours R.KIND (min line.moves 2) (V.position view.old) ≡ false }
    requires compiled { IsCompiled compiler.old }
    ensures told { IfOk result (IsTold R.KIND line.entry.moves (V.position view.old) compiler.new
        (line_wins R.KIND line.entry.threats.now line.entry.moves (V.position view.old))) }
    ensures writes { Writes compiler.old compiler.new (line_tree R.KIND line.entry.threats.now line.entry.moves (V.position view.old)) result }
    ensures same { V.position view.new ≡ V.position view.old }
{
    let later = LineLeft {
        moves: line.moves - 1,
        ..line
    };
    match block::<R, V>(line.alloc, view)? {
        Some(block) => prove_move::<R, V>(view, block, later, compiler),
        None => prove_gain::<R, V>(view, later, compiler),
    }
}

/// The least five point of the side that is not to move, if it has one.
fn block<R: Rule, V: Seen<R>>(alloc: Global, view: &V) -> Result<Option<Point>, AllocError>
    ensures block { IfOk result (λ block. block ≡ block_of R.KIND (V.position view.now)) }
{
    let defender = view.side().other();
    let points = fives::<R, V>(alloc, view, defender)?;
    match points.as_slice() {
        [] => Ok(None),
        [first, ..] => Ok(Some(*first)),
    }
}

/// Proves the line that begins with the first gain, where the attacker has as many more moves after it.
#[cycle(line)]
fn prove_gain<R: Rule, V: Seen<R>>(
    view: &mut V,
    line: LineLeft,
    compiler: &mut Compiler,
) -> Result<LineAnswer, SearchError>
    requires fits { line.moves < MAX_DEPTH }
    requires compiled { IsCompiled compiler.old }
    ensures told { IfOk result (IsTold R.KIND (suc line.entry.moves) (V.position view.old) compiler.new
        (move_wins R.KIND (V.position view.old) (λ ts. line_wins R.KIND ts line.entry.moves) (first_gain line.entry.threats.now))) }
    ensures writes { Writes compiler.old compiler.new
        (1 + behind_line_move R.KIND (V.position view.old) (λ ts. line_tree R.KIND ts line.entry.moves)
        (first_gain line.entry.threats.now)) result }
    ensures same { V.position view.new ≡ V.position view.old }
{
    match line.threats.split_first() {
        None => Ok(LineAnswer::Fails),
        Some((threat, threats)) => {
            let later = LineLeft { threats, ..line };
            prove_move::<R, V>(view, threat.gain, later, compiler)
        }
    }
}

/// Proves the move `p` with the line behind it.
#[cycle(line)]
fn prove_move<R: Rule, V: Seen<R>>(
    view: &mut V,
    p: Point,
    line: LineLeft,
    compiler: &mut Compiler,
) -> Result<LineAnswer, SearchError>
    requires fits { line.moves < MAX_DEPTH }
    requires compiled { IsCompiled compiler.old }
    ensures told { IfOk result (IsTold R.KIND (suc line.entry.moves) (V.position view.old) compiler.new
        (move_wins R.KIND (V.position view.old) (λ ts. line_wins R.KIND ts line.entry.moves) (Some (p, line.entry.threats.now)))) }
    ensures writes { Writes compiler.old compiler.new
        (1 + behind_line_move R.KIND (V.position view.old) (λ ts. line_tree R.KIND ts line.entry.moves)
        (Some (p, line.entry.threats.now))) result }
    ensures same { V.position view.new ≡ V.position view.old }
{
    match view.outcome(p) {
        Outcome::GoesOn => prove_on::<R, V>(view, p, line, compiler),
        _ => Ok(LineAnswer::Fails),
    }
}

/// The same where the move goes on.
#[cycle(line)]
fn prove_on<R: Rule, V: Seen<R>>(
    view: &mut V,
    p: Point,
    line: LineLeft,
    compiler: &mut Compiler,
) -> Result<LineAnswer, SearchError>
    requires fits { line.moves < MAX_DEPTH }
    requires goes_on { outcome_lem R.KIND (V.position view.old) p ≡ Outcome.GoesOn }
    requires compiled { IsCompiled compiler.old }
    ensures told { IfOk result (IsTold R.KIND (suc line.entry.moves) (V.position view.old) compiler.new
        (each_loses R.KIND (after (V.position view.old) p) (line_wins R.KIND line.entry.threats.now line.entry.moves))) }
    ensures writes { Writes compiler.old compiler.new
        (1 + behind_replies R.KIND (line_tree R.KIND line.entry.threats.now line.entry.moves) (after (V.position view.old) p)) result }
    ensures same { V.position view.new ≡ V.position view.old }
{
    match answers_after::<R, V>(view, p, line, compiler)? {
        None => Ok(LineAnswer::Fails),
        Some(answers) => Ok(LineAnswer::Proved(fork(p, &answers, compiler)?)),
    }
}

/// The answers to the replies to the move `p`, which goes on, if each of them loses.
#[cycle(line)]
fn answers_after<R: Rule, V: Seen<R>>(
    view: &mut V,
    p: Point,
    line: LineLeft,
    compiler: &mut Compiler,
) -> Result<Option<Answering>, SearchError>
    requires fits { line.moves < MAX_DEPTH }
    requires goes_on { outcome_lem R.KIND (V.position view.old) p ≡ Outcome.GoesOn }
    requires compiled { IsCompiled compiler.old }
    ensures found { IfOk result (FindsAnswers R.KIND line.entry.moves compiler.new (after (V.position view.old) p)
        (each_loses R.KIND (after (V.position view.old) p) (line_wins R.KIND line.entry.threats.now line.entry.moves))) }
    ensures writes { Writes compiler.old compiler.new
        (behind_replies R.KIND (line_tree R.KIND line.entry.threats.now line.entry.moves) (after (V.position view.old) p)) result }
    ensures same { V.position view.new ≡ V.position view.old }
{
    view.play(p);
    let found = answer_each::<R, V>(view, line, compiler);
    view.undo(p);
    found
}

/// The answers to the replies at a position where the other side is to move, if each reply that is a move fouls or goes on
/// to a position that is won along the line.
#[cycle(line)]
fn answer_each<R: Rule, V: Seen<R>>(
    view: &mut V,
    line: LineLeft,
    compiler: &mut Compiler,
) -> Result<Option<Answering>, SearchError>
    requires fits { line.moves < MAX_DEPTH }
    requires compiled { IsCompiled compiler.old }
    ensures found { IfOk result (FindsAnswers R.KIND line.entry.moves compiler.new (V.position view.old)
        (each_loses R.KIND (V.position view.old) (line_wins R.KIND line.entry.threats.now line.entry.moves))) }
    ensures writes { Writes compiler.old compiler.new
        (behind_replies R.KIND (line_tree R.KIND line.entry.threats.now line.entry.moves) (V.position view.old)) result }
    ensures same { V.position view.new ≡ V.position view.old }
{
    let defender = view.side();
    if view.has_five(defender) {
        return Ok(None);
    }
    let mut answers = Answering {
        replies: Vec::new(line.alloc),
        moves: 0,
    };
    let mut hints = Hints {
        five: block::<R, V>(line.alloc, view)?,
        double: None,
    };
    for q in view.board().points() {
        if !answer_reply::<R, V>(view, q, line, &mut hints, &mut answers, compiler)? {
            return Ok(None);
        }
    }
    Ok(Some(answers))
}

/// Whether the reply `q` is no move, fouls, or goes on to a position that is won. To one that goes on the answer is added.
#[cycle(line)]
fn answer_reply<R: Rule, V: Seen<R>>(
    view: &mut V,
    q: Point,
    line: LineLeft,
    hints: &mut Hints,
    answers: &mut Answering,
    compiler: &mut Compiler,
) -> Result<bool, SearchError>
    requires fits { line.moves < MAX_DEPTH }
    requires compiled { IsCompiled compiler.old }
    requires hint { IfSome hints.old.double (IsDouble (V.position view.old).width (V.position view.old).height compiler.old) }
    requires answers { AreAnswers R.KIND line.moves compiler.old (V.position view.old) answers.old }
    ensures answered { IfOk result (IsAnswered R.KIND line.entry.moves compiler.new (V.position view.old) q
        (line_wins R.KIND line.entry.threats.now line.entry.moves) answers.old answers.new) }
    ensures hint { OnOk result (IfSome hints.new.double (IsDouble (V.position view.old).width (V.position view.old).height compiler.new)) }
    ensures writes { Writes compiler.old compiler.new
        (if_goes_on (outcome_lem R.KIND (V.position view.old) q)
        (line_tree R.KIND line.entry.threats.now line.entry.moves (after (V.position view.old) q))) result }
    ensures same { V.position view.new ≡ V.position view.old }
{
    match view.outcome(q) {
        Outcome::Refused | Outcome::Fouls(_) => Ok(true),
        Outcome::Wins | Outcome::Draws => Ok(false),
        Outcome::GoesOn => answer_on::<R, V>(view, q, line, hints, answers, compiler),
    }
}

/// The same of a reply that goes on.
#[cycle(line)]
fn answer_on<R: Rule, V: Seen<R>>(
    view: &mut V,
    q: Point,
    line: LineLeft,
    hints: &mut Hints,
    answers: &mut Answering,
    compiler: &mut Compiler,
) -> Result<bool, SearchError>
    requires fits { line.moves < MAX_DEPTH }
    requires goes_on { outcome_lem R.KIND (V.position view.old) q ≡ Outcome.GoesOn }
    requires compiled { IsCompiled compiler.old }
    requires hint { IfSome hints.old.double (IsDouble (V.position view.old).width (V.position view.old).height compiler.old) }
    requires answers { AreAnswers R.KIND line.moves compiler.old (V.position view.old) answers.old }
    ensures answered { IfOk result (IsAnswered R.KIND line.entry.moves compiler.new (V.position view.old) q
        (line_wins R.KIND line.entry.threats.now line.entry.moves) answers.old answers.new) }
    ensures hint { OnOk result (IfSome hints.new.double (IsDouble (V.position view.old).width (V.position view.old).height compiler.new)) }
    ensures writes { Writes compiler.old compiler.new
        (line_tree R.KIND line.entry.threats.now line.entry.moves (after (V.position view.old) q)) result }
    ensures same { V.position view.new ≡ V.position view.old }
{
    match prove_after::<R, V>(view, q, line, hints, compiler)? {
        LineAnswer::Fails => Ok(false),
        LineAnswer::Proved(win) => {
            add(answers, q, win)?;
            Ok(true)
        }
    }
}

/// Proves the line at the position after the reply `q`, which goes on.
#[cycle(line)]
fn prove_after<R: Rule, V: Seen<R>>(
    view: &mut V,
    q: Point,
    line: LineLeft,
    hints: &mut Hints,
    compiler: &mut Compiler,
) -> Result<LineAnswer, SearchError>
    requires fits { line.moves ≤ MAX_DEPTH }
    requires goes_on { outcome_lem R.KIND (V.position view.old) q ≡ Outcome.GoesOn }
    requires compiled { IsCompiled compiler.old }
    requires hint { IfSome hints.old.double (IsDouble (V.position view.old).width (V.position view.old).height compiler.old) }
    ensures told { IfOk result (IsTold R.KIND line.entry.moves (after (V.position view.old) q) compiler.new
        (line_wins R.KIND line.entry.threats.now line.entry.moves (after (V.position view.old) q))) }
    ensures hint { OnOk result (IfSome hints.new.double (IsDouble (V.position view.old).width (V.position view.old).height compiler.new)) }
    ensures writes { Writes compiler.old compiler.new
        (line_tree R.KIND line.entry.threats.now line.entry.moves (after (V.position view.old) q)) result }
    ensures same { V.position view.new ≡ V.position view.old }
{
    view.play(q);
    let found = prove_reply::<R, V>(view, line, hints, compiler);
    view.undo(q);
    found
}

/// Proves the line at the position after a reply.
#[cycle(line)]
fn prove_reply<R: Rule, V: Seen<R>>(
    view: &mut V,
    line: LineLeft,
    hints: &mut Hints,
    compiler: &mut Compiler,
) -> Result<LineAnswer, SearchError>
    requires fits { line.moves ≤ MAX_DEPTH }
    requires compiled { IsCompiled compiler.old }
    requires hint { IfSome hints.old.double (IsDouble (V.position view.old).width (V.position view.old).height compiler.old) }
    ensures told { IfOk result (IsTold R.KIND line.entry.moves (V.position view.old) compiler.new
        (line_wins R.KIND line.entry.threats.now line.entry.moves (V.position view.old))) }
    ensures hint { OnOk result (IfSome hints.new.double (IsDouble (V.position view.old).width (V.position view.old).height compiler.new)) }
    ensures writes { Writes compiler.old compiler.new (line_tree R.KIND line.entry.threats.now line.entry.moves (V.position view.old)) result }
    ensures same { V.position view.new ≡ V.position view.old }
{
    if line.moves == 0 {
        return Ok(LineAnswer::Fails);
    }
    match quick_reply::<R, V>(line.alloc, view, line.moves, hints, compiler)? {
        Some(win) => Ok(LineAnswer::Proved(win)),
        None => prove_slow::<R, V>(view, line, compiler),
    }
}
