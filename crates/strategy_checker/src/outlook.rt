//! What is known of the replies at a position before any is asked.
#![tactic(auto)]

ghost use Rattle.std.specs.Prelude.{◌≡◌, ◌<◌, true, false, length, Some, IfSome};
ghost use Rattle.game_rules.specs.Games.{has_five};
ghost use Rattle.game_rules.specs.Play.{outcome, mover};
ghost use Rattle.strategy_graph.specs.Tables.{rest_node};
ghost use Rattle.strategy_checker.specs.Walks.{AreFives, IsOutlook, IsQuick, IsSure, TellsFives, fives_after, is_sure_after};
ghost use Rattle.strategy_checker.specs.Walks.{leaves_none as leaves_none_lem};

use foul_judge::{Outcome, Position, Seen};
use row_shapes::{FivePoints, Rule};
use stone_board::Point;
use strategy_graph::{Rest, Table};

/// What is known of the five points of the side that is not to move.
#[derive(Clone, Copy)]
pub(crate) enum Fives {
    /// Nothing.
    Unknown,
    /// Which they are.
    Told(FivePoints),
    /// There was none before its last stone, which is on this point.
    MadeBy(Point),
}

/// What is known of the replies at a position before any is asked.
#[derive(Clone, Copy)]
pub(crate) struct Outlook {
    /// The side to move has no five point. Where this is not set, nothing is said.
    pub(crate) free: bool,
    /// Each reply on an empty point goes on. Where this is not set, nothing is said.
    pub(crate) quick: bool,
    /// The node of the rest, where it is sure.
    pub(crate) sure: Option<Sure>,
}

/// A node whose attack is a five point of the side that is not to move: it wins after each reply that goes on elsewhere.
#[derive(Clone, Copy)]
pub(crate) struct Sure {
    node: u32,
    pub(crate) attack: Point,
}

/// The five points of the side that is not to move, where they are known. The position is the same afterwards.
pub(crate) fn told<R: Rule>(fives: Fives, position: &mut Position<R>) -> Option<FivePoints>
    requires fives { AreFives R.KIND position.old fives }
    ensures told { TellsFives R.KIND position.old result }
    ensures same { position.new ≡ position.old }
{
    match fives {
        Fives::Unknown => None,
        Fives::Told(fives) => Some(fives),
        Fives::MadeBy(q) => {
            position.undo(q);
            let made = position.fives_made(q);
            position.play(q);
            Some(made)
        }
    }
}

/// Whether a stone of the other side on `p` leaves none of the five points that are told.
pub(crate) fn leaves_none(fives: Option<FivePoints>, p: Point) -> bool
    ensures none { result ≡ leaves_none_lem fives p }
{
    match fives {
        None => false,
        Some(FivePoints::None) => true,
        Some(FivePoints::One(w)) => w.x == p.x && w.y == p.y,
        Some(FivePoints::Several) => false,
    }
}

/// What is known of the five points of the side whose stone on `q` is to come, where it is known to have none if `free` is set.
pub(crate) fn known_after(free: bool, q: Point) -> Fives
    ensures fives { result ≡ fives_after free q }
{
    if free {
        Fives::MadeBy(q)
    } else {
        Fives::Unknown
    }
}

/// What is known of the replies, where the side to move has no five point if `free` is set.
pub(crate) fn outlook_of<R: Rule>(
    table: &Table,
    rest: Rest,
    free: bool,
    position: &Position<R>,
) -> Outlook
    requires below { IfSome (rest_node rest) (λ j. j < length table.now) }
    requires free { free ≡ true → has_five R.KIND position.now (mover position.now) ≡ false }
    ensures outlook { IsOutlook R.KIND table.now position.now result }
    ensures rest { IfSome result.sure (λ s. rest_node rest ≡ Some s.node) }
{
    let sure = sure_rest(table, rest, position);
    let quick = is_quick(free, position);
    Outlook { free, quick, sure }
}

/// Whether each reply on an empty point goes on, as it does for a side that has no five point and no fouls, unless it takes the
/// last one.
fn is_quick<R: Rule>(free: bool, position: &Position<R>) -> bool
    requires free { free ≡ true → has_five R.KIND position.now (mover position.now) ≡ false }
    ensures quick { result ≡ true → (p : Point) → IsQuick R.KIND position.now p }
{
    if free {
        if position.board().empties() > 1 {
            return !R::has_fouls(position.side());
        }
    }
    false
}

/// The outcome of the reply `q`, which goes on if it is on an empty point and `quick` is set.
pub(crate) fn outcome_of<R: Rule>(quick: bool, position: &mut Position<R>, q: Point) -> Outcome
    requires quick { quick ≡ true → (p : Point) → IsQuick R.KIND position.old p }
    ensures outcome { result ≡ outcome R.KIND position.old q }
    ensures same { position.new ≡ position.old }
{
    if quick {
        if position.board().is_empty(q) {
            Outcome::GoesOn
        } else {
            Outcome::Refused
        }
    } else {
        position.outcome(q)
    }
}

/// The node of the rest, where its attack is a five point of the side that is not to move.
fn sure_rest<R: Rule>(table: &Table, rest: Rest, position: &Position<R>) -> Option<Sure>
    requires below { IfSome (rest_node rest) (λ j. j < length table.now) }
    ensures sure { IfSome result (IsSure R.KIND table.now position.now) }
    ensures rest { IfSome result (λ s. rest_node rest ≡ Some s.node) }
{
    match rest.node() {
        None => None,
        Some(node) => sure_at(table, node, position),
    }
}

/// The node, where its attack is a five point of the side that is not to move.
fn sure_at<R: Rule>(table: &Table, node: u32, position: &Position<R>) -> Option<Sure>
    requires in_table { node < length table.now }
    ensures sure { IfSome result (IsSure R.KIND table.now position.now) }
    ensures node { IfSome result (λ s. s.node ≡ node) }
{
    let attack = table.node(node).attack;
    let attacker = position.side().other();
    if position.board().is_empty(attack) && position.five(attacker, attack) {
        Some(Sure { node, attack })
    } else {
        None
    }
}

/// What is known of a node that answers a reply: where it is not the one that is known already, it is asked only if it is
/// one that wins.
pub(crate) fn sure_of<R: Rule>(
    known: Option<Sure>,
    table: &Table,
    next: u32,
    position: &Position<R>,
) -> Option<Sure>
    requires in_table { next < length table.now }
    requires known { IfSome known (IsSure R.KIND table.now position.now) }
    ensures sure { IfSome result (IsSure R.KIND table.now position.now) }
{
    match known {
        Some(sure) if sure.node == next => known,
        _ => {
            if table.node(next).rest.is_winning() {
                sure_at(table, next, position)
            } else {
                None
            }
        }
    }
}

/// Whether the node wins for sure after the reply `q`.
pub(crate) fn wins_for_sure(sure: Option<Sure>, node: u32, q: Point) -> bool
    ensures sure { result ≡ is_sure_after sure node q }
{
    match sure {
        None => false,
        Some(found) => found.node == node && found.attack != q,
    }
}
