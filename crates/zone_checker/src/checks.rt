//! The verdict on a root by zones.
#![tactic(auto)]

ghost use Rattle.std.specs.Prelude.{◌≡◌, true, IfOk, MatchResult, length};
ghost use Rattle.game_rules.specs.Grid.{points_of};
ghost use Rattle.game_rules.specs.Play.{IsPosition};
ghost use Rattle.strategy_graph.specs.Roots.{root_below};
ghost use Rattle.zone_checker.specs.Marks.{IsGreatest};
ghost use Rattle.zone_checker.specs.Pairs.{RootHasPairs};
ghost use Rattle.zone_checker.specs.Roots.{attacker as attacker_lem, IsRootZone};
ghost use Rattle.zone_checker.specs.Verdicts.{IsVerdict};
ghost use Rattle.zone_checker.specs.Walks.{Stopped, Took};

use crate::marks::Mark;
use crate::walk::{Asked, Ground, Stop, Walk, node_zone, withstand};
use foul_judge::{Position, Seen};
use row_shapes::Rule;
use std::alloc::{AllocError, Global};
use stone_board::{Points, Side};
use strategy_graph::{Rest, Root, Table};

/// The most moves of a table that is walked: the walk recurses once for each.
pub const MAX_ZONE_MOVES: u32 = 60;

/// What is said of a root at a position by zones.
#[derive(Clone, Copy, Debug, PartialEq, Eq)]
pub enum ZoneVerdict {
    /// The root is accepted by a zone. It wins within `moves` attacks; `pairs`, at most the work, is the number of pairs of a node and a
    /// board that a walk for zones looks at.
    Accepted { moves: u32, pairs: u64 },
    /// The root is not accepted by a zone.
    Refused,
    /// The root has more pairs than the work allows, or is deeper than `MAX_ZONE_MOVES`.
    Spent,
}

/// The side that attacks by the root at the position.
fn attacker<R: Rule>(root: &Root, position: &Position<R>) -> Side
    ensures attacker { result ≡ attacker_lem root.now position.now }
    ensures lawful { IsPosition R.KIND position.now }
{
    match root {
        Root::Attack(_) => position.side(),
        Root::Defend(_) => position.side().other(),
    }
}

/// The greatest zone of the root at the board of the walk.
fn root_zone<R: Rule>(ground: Ground, root: &Root, walk: &mut Walk) -> Result<Vec<Mark>, Stop>
    requires below { root_below root.now (length ground.table.now) ≡ true }
    requires points { ground.points.now ≡ points_of walk.old.board }
    ensures found { let has = IsRootZone R.KIND ground.entry.table.now ground.entry.side root.now walk.old.board in
        MatchResult result (λ marks. IsGreatest has walk.old.board marks.items)
        (Stopped has walk.old.left (RootHasPairs R.KIND ground.entry.table.now ground.entry.side root.now walk.old.board)) }
    ensures took { let paired = RootHasPairs R.KIND ground.entry.table.now ground.entry.side root.now walk.old.board in
        IfOk result (λ _. Took paired walk.old.left walk.new.left) }
{
    match root {
        Root::Attack(number) => node_zone::<R>(ground, *number, walk),
        Root::Defend(start) => match start.rest() {
            Rest::To(rest) => {
                let asked = Asked {
                    replies: start.replies().as_slice(),
                    rest,
                    bound: ground.table.len(),
                };
                withstand::<R>(ground, asked, walk)
            }
            Rest::Wins | Rest::Nothing => Err(Stop::Zoneless),
        },
    }
}

/// Whether the root is accepted at the position by a zone, with at most so many pairs of a node and a board looked at. The root
/// names only nodes of the table. `Err` says that memory ran out.
pub fn check_by_zones<R: Rule>(
    alloc: Global,
    table: &Table,
    root: &Root,
    position: &Position<R>,
    work: u64,
) -> Result<ZoneVerdict, AllocError>
    requires below { root_below root.now (length table.now) ≡ true }
    ensures verdict { IfOk result (IsVerdict R.KIND table.now root.now work position.now) }
{
    let moves = table.root_depth(root)?;
    if moves > MAX_ZONE_MOVES {
        return Ok(ZoneVerdict::Spent);
    }
    let side = attacker(root, position);
    if R::has_fouls(side) {
        return Ok(ZoneVerdict::Refused);
    }
    let points = Points::all_of(alloc, position.board())?;
    let mut walk = Walk {
        board: position.board().copy()?,
        left: work,
    };
    let ground = Ground {
        alloc,
        table,
        points: points.as_slice(),
        side,
    };
    match root_zone::<R>(ground, root, &mut walk) {
        Ok(_) => Ok(ZoneVerdict::Accepted {
            moves,
            pairs: work - walk.left,
        }),
        Err(Stop::Zoneless) => Ok(ZoneVerdict::Refused),
        Err(Stop::Spent) => Ok(ZoneVerdict::Spent),
        Err(Stop::Memory) => Err(AllocError),
    }
}
