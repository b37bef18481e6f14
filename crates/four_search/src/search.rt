//! One search within some moves: the walk through the fours and their blocks.
//!
//! The walk counts each position in which the attacker is to move against the budget, and stops where that is spent. It
//! tries the fours in reading order and ends at the first that wins, so it knows the chosen move of each position on the
//! way to the win. No position is scanned for five points: they are those that the last two moves made, and where the defender
//! has one, the only move that may help is to take it. A four makes a five point, and the points that do are kept in a short
//! list from move to move. A position without a win that comes again is counted, and not searched again.
#![tactic(auto)]

ghost use Rattle.std.specs.Prelude.{◌≡◌, ◌<◌, ◌≤◌, ◌+◌, ◌-◌, if◌then◌else◌, nat_le, [], ◌∷◌, ◌++◌, true, false, IfOk, IsTrue, Some};
ghost use Rattle.game_rules.specs.Grid.{is_empty};
ghost use Rattle.game_rules.specs.Play.{IsPosition, after, outcome, mover, other as other_lem};
ghost use Rattle.game_rules.specs.Games.{has_five as has_five_lem, five_points};
ghost use Rattle.threat_moves.specs.FourMoves.{is_four_move};
ghost use Rattle.threat_moves.specs.OneBlock.{all_foul as all_foul_lem, won_within as won_within_lem};
ghost use Rattle.threat_moves.specs.Blocks.{fate as fate_lem};
ghost use Rattle.row_shapes.specs.FivePoints.{in_short};
ghost use Rattle.four_search.specs.FourPoints.{four_points_of, AfterFour, AfterReply, RulesOut, HasCalmBlock};
ghost use Rattle.four_search.specs.Roots.{TellsRoot};
ghost use Rattle.four_search.specs.Searching.{found_at, found_trying, found_behind, found_answering};

use crate::calm::has_calm_corners;
use crate::four_points::{FourPoint, next_four_points};
use crate::memory::FourMemory;
use crate::root::Root;
use foul_judge::{Outcome, Seen};
use row_shapes::{Rule, takes};
use std::alloc::AllocError;
use stone_board::{Point, Points};
use threat_moves::{BlockAnswer, FivePoints, by_block};

/// The least number of points that make a five point with which a position is looked up. Where fewer than three fours stand apart,
/// fewer positions are searched than are kept.
const LEAST_FOUR_POINTS: usize = 6;

/// What a search may use: so many moves of the attacker, and so many positions to look at.
#[derive(Clone, Copy)]
pub(crate) struct Limits {
    pub(crate) moves: u32,
    pub(crate) budget: u64,
}

/// A four, and a five point that it makes, where the defender may reply.
#[derive(Clone, Copy)]
pub(crate) struct Exchange {
    pub(crate) four: Point,
    pub(crate) block: Point,
}

/// What a search within some moves finds, and how much of the budget it leaves.
#[derive(Drop)]
pub(crate) enum Found {
    /// A win by fours. The line is the chosen moves against each block, the last one first, up to a five point or a four that
    /// has won.
    Win { left: u64, line: Points },
    /// There is none.
    NoWin { left: u64 },
    /// There are more positions to look at than the budget.
    Spent,
}

/// Searches a win by fours within so many moves, at least 1, looking at no more positions than the budget. The first position is
/// looked at already. The view is as before, also where memory ran out.
pub(crate) fn search<R: Rule, V: Seen<R>>(
    view: &mut V,
    root: &Root,
    limits: Limits,
    memory: &mut FourMemory<R>,
) -> Result<Found, AllocError>
    requires some { 0 < limits.moves }
    requires lawful { IsPosition R.KIND (V.position view.old) }
    requires root { TellsRoot R.KIND (V.position view.old) root.now }
    ensures found { IfOk result (λ found. found ≡ found_at R.KIND limits.moves (V.position view.old) limits.budget) }
    ensures same { V.position view.new ≡ V.position view.old }
{
    if limits.budget == 0 {
        return Ok(Found::Spent);
    }
    match root {
        Root::Five => Ok(Found::Win {
            left: limits.budget - 1,
            line: Points::new(memory.alloc()),
        }),
        Root::NoFive {
            threat,
            four_points,
        } => {
            if limits.moves == 1 && !R::has_fouls(view.side().other()) {
                return Ok(Found::NoWin {
                    left: limits.budget - 1,
                });
            }
            try_four_points::<R, V>(view, *threat, four_points.as_slice(), limits, memory)
        }
    }
}

/// Searches a position that comes after a four and its block. The attacker has no five point, the defender's are known in short, and
/// the budget is not spent. The points are known that made a five point before the four and its block. Only a position with fours
/// enough is looked up. For a last move, which is searched here where the defender has fouls, it is enough that these cannot be all of
/// its replies.
#[cycle(search)]
fn search_on<R: Rule, V: Seen<R>>(
    view: &mut V,
    threat: FivePoints,
    before: &[FourPoint],
    exchange: Exchange,
    limits: Limits,
    memory: &mut FourMemory<R>,
) -> Result<Found, AllocError>
    requires some { 0 < limits.moves }
    requires lawful { IsPosition R.KIND (V.position view.old) }
    requires some_budget { 0 < limits.budget }
    requires none { has_five_lem R.KIND (V.position view.old) (mover (V.position view.old)) ≡ false }
    requires threat { threat ≡ in_short (five_points R.KIND (V.position view.old) (other_lem (mover (V.position view.old)))) }
    requires before { AfterReply R.KIND before.now exchange.four exchange.block (V.position view.old) }
    ensures found { IfOk result (λ found. found ≡ found_at R.KIND limits.moves (V.position view.old) limits.budget) }
    ensures same { V.position view.new ≡ V.position view.old }
{
    if limits.moves == 1 && has_calm_corners(view.board()) {
        return Ok(Found::NoWin {
            left: limits.budget - 1,
        });
    }
    if rules_out::<R, V>(view, threat) {
        return Ok(Found::NoWin {
            left: limits.budget - 1,
        });
    }
    let four_points = next_four_points::<R, V>(
        memory.alloc(),
        view,
        before,
        exchange.four,
        exchange.block,
    )?;
    if four_points.len() < LEAST_FOUR_POINTS || !matches!(threat, FivePoints::None) {
        return try_four_points::<R, V>(view, threat, four_points.as_slice(), limits, memory);
    }
    remembered::<R, V>(view, threat, four_points.as_slice(), limits, memory)
}

/// Takes what is remembered of a position within as many moves, or searches it. The points are known that make a five point. Without
/// memory to remember it the search goes on.
#[cycle(search)]
fn remembered<R: Rule, V: Seen<R>>(
    view: &mut V,
    threat: FivePoints,
    four_points: &[FourPoint],
    limits: Limits,
    memory: &mut FourMemory<R>,
) -> Result<Found, AllocError>
    requires some { 0 < limits.moves }
    requires lawful { IsPosition R.KIND (V.position view.old) }
    requires some_budget { 0 < limits.budget }
    requires none { has_five_lem R.KIND (V.position view.old) (mover (V.position view.old)) ≡ false }
    requires threat { threat ≡ in_short (five_points R.KIND (V.position view.old) (other_lem (mover (V.position view.old)))) }
    requires four_points { four_points.now ≡ four_points_of R.KIND (V.position view.old) }
    ensures found { IfOk result (λ found. found ≡ found_at R.KIND limits.moves (V.position view.old) limits.budget) }
    ensures same { V.position view.new ≡ V.position view.old }
{
    if let Some(count) = memory.find(view.board(), limits.moves) {
        return Ok(without_win(count, limits.budget));
    }
    match try_four_points::<R, V>(view, threat, four_points, limits, memory)? {
        Found::NoWin { left } => {
            let _ = memory.keep(view.board(), limits.moves, limits.budget - left);
            Ok(Found::NoWin { left })
        }
        other => Ok(other),
    }
}

/// What is found where a search looks at so many positions and finds no win.
fn without_win(count: u64, budget: u64) -> Found
    ensures found { result ≡ (if nat_le count budget then Found.NoWin (budget - count) else Found.Spent) }
{
    if count <= budget {
        Found::NoWin {
            left: budget - count,
        }
    } else {
        Found::Spent
    }
}

/// Whether no four can be made, since these five points of the other side have to be taken first.
fn rules_out<R: Rule, V: Seen<R>>(view: &V, threat: FivePoints) -> bool
    requires none { has_five_lem R.KIND (V.position view.now) (mover (V.position view.now)) ≡ false }
    requires threat { threat ≡ in_short (five_points R.KIND (V.position view.now) (other_lem (mover (V.position view.now)))) }
    ensures out { result ≡ true → RulesOut R.KIND (V.position view.now) threat }
{
    match threat {
        FivePoints::None => false,
        FivePoints::Several => true,
        FivePoints::One(point) => matches!(view.fives_made(point), FivePoints::None),
    }
}

/// The same where the points are known that make a five point: of these each is tried that leaves the defender none.
#[cycle(search)]
fn try_four_points<R: Rule, V: Seen<R>>(
    view: &mut V,
    threat: FivePoints,
    four_points: &[FourPoint],
    limits: Limits,
    memory: &mut FourMemory<R>,
) -> Result<Found, AllocError>
    requires some { 0 < limits.moves }
    requires lawful { IsPosition R.KIND (V.position view.old) }
    requires some_budget { 0 < limits.budget }
    requires none { has_five_lem R.KIND (V.position view.old) (mover (V.position view.old)) ≡ false }
    requires threat { threat ≡ in_short (five_points R.KIND (V.position view.old) (other_lem (mover (V.position view.old)))) }
    requires four_points { four_points.now ≡ four_points_of R.KIND (V.position view.old) }
    ensures found { IfOk result (λ found. found ≡ found_at R.KIND limits.moves (V.position view.old) limits.budget) }
    ensures same { V.position view.new ≡ V.position view.old }
{
    let mut left = limits.budget - 1;
    for four_point in four_points {
        if takes(threat, four_point.at) {
            let later = Limits {
                moves: limits.moves - 1,
                budget: left,
            };
            match try_point::<R, V>(view, *four_point, four_points, later, memory)? {
                Found::NoWin { left: rest } => left = rest,
                found => return Ok(found),
            }
        }
    }
    Ok(Found::NoWin { left })
}

/// Searches behind a point that makes a five point, if a four move is there, where the attacker has so many moves after it. The
/// attacker has no five point before it, and the defender none after it.
#[cycle(search)]
fn try_point<R: Rule, V: Seen<R>>(
    view: &mut V,
    four: FourPoint,
    four_points: &[FourPoint],
    limits: Limits,
    memory: &mut FourMemory<R>,
) -> Result<Found, AllocError>
    requires empty { IsTrue (is_empty (V.position view.old) four.at) }
    requires none { has_five_lem R.KIND (V.position view.old) (mover (V.position view.old)) ≡ false }
    requires some { has_five_lem R.KIND (after (V.position view.old) four.at) (mover (V.position view.old)) ≡ true }
    requires made { four.made ≡ in_short (five_points R.KIND (after (V.position view.old) four.at) (mover (V.position view.old))) }
    requires safe { has_five_lem R.KIND (after (V.position view.old) four.at) (other_lem (mover (V.position view.old))) ≡ false }
    requires four_points { four_points.now ≡ four_points_of R.KIND (V.position view.old) }
    ensures found { IfOk result (λ found. found ≡ found_trying R.KIND limits.moves (V.position view.old) four.at limits.budget) }
    ensures same { V.position view.new ≡ V.position view.old }
{
    match no_five_outcome::<R, V>(view, four.at) {
        Outcome::GoesOn => behind::<R, V>(view, four, four_points, limits, memory),
        _ => Ok(Found::NoWin {
            left: limits.budget,
        }),
    }
}

/// Searches behind a four move, where the attacker has so many more moves. With one more a block that goes on for sure is counted and
/// not played: after it the attacker cannot win.
#[cycle(search)]
fn behind<R: Rule, V: Seen<R>>(
    view: &mut V,
    four: FourPoint,
    four_points: &[FourPoint],
    limits: Limits,
    memory: &mut FourMemory<R>,
) -> Result<Found, AllocError>
    requires goes_on { outcome R.KIND (V.position view.old) four.at ≡ Outcome.GoesOn }
    requires none { has_five_lem R.KIND (V.position view.old) (mover (V.position view.old)) ≡ false }
    requires made { four.made ≡ in_short (five_points R.KIND (after (V.position view.old) four.at) (mover (V.position view.old))) }
    requires safe { has_five_lem R.KIND (after (V.position view.old) four.at) (other_lem (mover (V.position view.old))) ≡ false }
    requires four_points { four_points.now ≡ four_points_of R.KIND (V.position view.old) }
    ensures found { IfOk result (λ found. found ≡ found_behind R.KIND limits.moves (V.position view.old) four.at limits.budget) }
    ensures same { V.position view.new ≡ V.position view.old }
{
    if limits.moves == 1 && has_calm_block::<R, V>(view, four.made) {
        return Ok(without_win(1, limits.budget));
    }
    view.play(four.at);
    let found = answering::<R, V>(view, four, four_points, limits, memory);
    view.undo(four.at);
    match found? {
        Found::Win { left, line } => win_by(four.at, line, left),
        found => Ok(found),
    }
}

/// Whether a four that makes these five points has one block, and that goes on for sure: the defender has no fouls, and the two moves
/// leave an empty point.
fn has_calm_block<R: Rule, V: Seen<R>>(view: &V, made: FivePoints) -> bool
    ensures calm { result ≡ true → HasCalmBlock R.KIND (V.position view.now) made }
    ensures lawful { IsPosition R.KIND (V.position view.now) }
{
    let defender = view.side().other();
    match made {
        FivePoints::None | FivePoints::Several => false,
        FivePoints::One(_) => !R::has_fouls(defender) && view.board().empties() > 2,
    }
}

/// Searches after a four, where the attacker has so many more moves: the defender is to move and has no five point, and the attacker
/// has those that the four made.
#[cycle(search)]
fn answering<R: Rule, V: Seen<R>>(
    view: &mut V,
    four: FourPoint,
    four_points: &[FourPoint],
    limits: Limits,
    memory: &mut FourMemory<R>,
) -> Result<Found, AllocError>
    requires made { four.made ≡ in_short (five_points R.KIND (V.position view.old) (other_lem (mover (V.position view.old)))) }
    requires safe { has_five_lem R.KIND (V.position view.old) (mover (V.position view.old)) ≡ false }
    requires four_points { AfterFour R.KIND four_points.now four.at (V.position view.old) }
    ensures found { IfOk result (λ found. found ≡ found_answering R.KIND limits.moves (V.position view.old) limits.budget) }
    ensures same { V.position view.new ≡ V.position view.old }
{
    let Limits { moves, budget } = limits;
    match fate::<R, V>(view, four.made) {
        BlockAnswer::Lost | BlockAnswer::Draw(_) => Ok(Found::NoWin { left: budget }),
        BlockAnswer::Won => {
            if won_within::<R, V>(view, moves) {
                Ok(Found::Win {
                    left: budget,
                    line: Points::new(memory.alloc()),
                })
            } else {
                Ok(Found::NoWin { left: budget })
            }
        }
        BlockAnswer::One(block) => {
            if moves == 0 {
                Ok(Found::NoWin { left: budget })
            } else {
                let exchange = Exchange {
                    four: four.at,
                    block,
                };
                after_block::<R, V>(view, exchange, four_points, limits, memory)
            }
        }
    }
}

/// Searches after the one block of a four, which goes on. A last move can win only where the defender may foul.
#[cycle(search)]
fn after_block<R: Rule, V: Seen<R>>(
    view: &mut V,
    exchange: Exchange,
    four_points: &[FourPoint],
    limits: Limits,
    memory: &mut FourMemory<R>,
) -> Result<Found, AllocError>
    requires goes_on { outcome R.KIND (V.position view.old) exchange.block ≡ Outcome.GoesOn }
    requires one { in_short (five_points R.KIND (V.position view.old) (other_lem (mover (V.position view.old)))) ≡ FivePoints.One exchange.block }
    requires safe { has_five_lem R.KIND (V.position view.old) (mover (V.position view.old)) ≡ false }
    requires four_points { AfterFour R.KIND four_points.now exchange.four (V.position view.old) }
    requires some { 0 < limits.moves }
    ensures found { IfOk result (λ found. found ≡ found_at R.KIND limits.moves (after (V.position view.old) exchange.block) limits.budget) }
    ensures same { V.position view.new ≡ V.position view.old }
{
    if limits.budget == 0 {
        return Ok(Found::Spent);
    }
    let defender = view.side();
    if limits.moves == 1 && !R::has_fouls(defender) {
        return Ok(Found::NoWin {
            left: limits.budget - 1,
        });
    }
    let threat = view.fives_made(exchange.block);
    view.play(exchange.block);
    let found = search_on::<R, V>(view, threat, four_points, exchange, limits, memory);
    view.undo(exchange.block);
    found
}

/// What becomes of a four where the defender is to move and has no five point, and the attacker has these.
#[tactic(auto, unfolding(threat_moves::specs::Blocks::fate))]
fn fate<R: Rule, V: Seen<R>>(view: &mut V, made: FivePoints) -> BlockAnswer
    requires made { made ≡ in_short (five_points R.KIND (V.position view.old) (other_lem (mover (V.position view.old)))) }
    requires safe { has_five_lem R.KIND (V.position view.old) (mover (V.position view.old)) ≡ false }
    ensures fate { result ≡ fate_lem R.KIND (V.position view.old) }
    ensures same { V.position view.new ≡ V.position view.old }
{
    match made {
        FivePoints::None => BlockAnswer::Lost,
        FivePoints::Several => BlockAnswer::Won,
        FivePoints::One(block) => by_block(block, no_five_outcome::<R, V>(view, block)),
    }
}

/// The outcome of a move that makes no five. It can only foul or fill the board, so where its side has no fouls no line is
/// looked at. The view is as before.
pub(crate) fn no_five_outcome<R: Rule, V: Seen<R>>(view: &mut V, p: Point) -> Outcome
    requires empty { IsTrue (is_empty (V.position view.old) p) }
    requires none { has_five_lem R.KIND (V.position view.old) (mover (V.position view.old)) ≡ false }
    ensures outcome { result ≡ outcome R.KIND (V.position view.old) p }
    ensures same { V.position view.new ≡ V.position view.old }
{
    if R::has_fouls(view.side()) {
        return view.outcome(p);
    }
    if view.board().empties() == 1 {
        Outcome::Draws
    } else {
        Outcome::GoesOn
    }
}

/// A win that begins with `p`, where the line goes on after it.
fn win_by(p: Point, line: Points, left: u64) -> Result<Found, AllocError>
    ensures win { IfOk result (λ found. found ≡ Found.Win left (line ++ p ∷ [])) }
{
    let mut line = line;
    line.push(p)?;
    Ok(Found::Win { left, line })
}

/// Whether a four that has won wins where the attacker has so many more moves: with none left each reply has to foul. The
/// view is as before.
fn won_within<R: Rule, V: Seen<R>>(view: &mut V, moves: u32) -> bool
    ensures won { result ≡ won_within_lem R.KIND moves (V.position view.old) }
    ensures same { V.position view.new ≡ V.position view.old }
{
    moves > 0 || all_foul::<R, V>(view)
}

/// Whether each reply is no move or fouls. The view is as before.
fn all_foul<R: Rule, V: Seen<R>>(view: &mut V) -> bool
    ensures foul { result ≡ all_foul_lem R.KIND (V.position view.old) }
    ensures same { V.position view.new ≡ V.position view.old }
{
    for q in view.board().points() {
        match view.outcome(q) {
            Outcome::Refused | Outcome::Fouls(_) => {}
            _ => return false,
        }
    }
    true
}
