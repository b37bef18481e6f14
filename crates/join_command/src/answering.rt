//! Which file answers at a position.
//!
//! A table of the position itself answers first. Else the roots of the files are asked by zones, which needs no count of arrivals and
//! refuses early: first the one that was the first to answer so, since one root mostly answers all replies that threaten nothing.
#![tactic(auto)]

ghost use Rattle.std.specs.Prelude.{◌≡◌, ◌↔◌, ◌≤◌, ◌<◌, true, length, IfOk, IsTrue};
ghost use Rattle.std.specs.List.{AllByRecursion};
ghost use Rattle.game_rules.specs.Play.{IsPosition};
ghost use Rattle.strategy_graph.specs.Roots.{root_below};
ghost use Rattle.join_command.specs.Answering.{IsTableOf};
ghost use Rattle.join_command.specs.Adopting.{IsAcceptedFile};
ghost use Rattle.join_command.specs.Asking.{IsAnswerTold, IsFirst, IsFirstTable, IsZoneFound, IsZoneTold};

use crate::MAX_PAIRS;
use foul_judge::{Position, Seen};
use game_rules::RuleKind;
use position_files::TableFile;
use row_shapes::Rule;
use std::alloc::{AllocError, Global};
use stone_board::Board;
use strategy_graph::Root;
use zone_checker::{ZoneVerdict, check_by_zones};

/// The file that answers, and the first that did so by a zone, if one did.
#[derive(Clone, Copy)]
pub(crate) struct Found {
    pub(crate) file: usize,
    pub(crate) first: Option<usize>,
}

/// Whether the file is a table of the position of this rule and board, where the side to move claims the win.
fn is_table_of(kind: RuleKind, board: &Board, file: &TableFile) -> bool
    ensures table { IsTrue result ↔ IsTableOf kind board.now file.now }
{
    match &file.root {
        Root::Attack(_) => file.kind == kind && file.board.same(board),
        Root::Defend(_) => false,
    }
}

/// The first file that is a table of the position of this rule and board.
fn first_table(kind: RuleKind, board: &Board, files: &[TableFile]) -> Option<usize>
    ensures first { IsFirstTable kind board.now files.now result }
{
    for (k, file) in files.iter().enumerate() {
        if is_table_of(kind, board, file) {
            return Some(k);
        }
    }
    None
}

/// Whether the other board has the width and the height of the board.
pub(crate) fn has_size_of(board: &Board, other: &Board) -> bool
    ensures size { IsTrue result ↔ ((other.now.width ≡ board.now.width) × (other.now.height ≡ board.now.height)) }
{
    other.width() == board.width() && other.height() == board.height()
}

/// Whether the root of the file, which names nodes of its table alone, is accepted at the position by a zone. A start is not, nor is the
/// root of a table on a board of another size.
fn has_zone<R: Rule>(
    alloc: Global,
    file: &TableFile,
    position: &Position<R>,
) -> Result<bool, AllocError>
    requires below { root_below file.now.root (length file.now.table) ≡ true }
    requires lawful { IsPosition R.KIND position.now }
    ensures zone { IfOk result (IsZoneTold R.KIND position.now file.now) }
{
    match &file.root {
        Root::Attack(_) => {}
        Root::Defend(_) => return Ok(false),
    }
    if !has_size_of(position.board(), &file.board) {
        return Ok(false);
    }
    match check_by_zones(alloc, &file.table, &file.root, position, MAX_PAIRS)? {
        ZoneVerdict::Accepted { moves: _, pairs: _ } => Ok(true),
        ZoneVerdict::Refused => Ok(false),
        ZoneVerdict::Spent => Ok(false),
    }
}

/// The first of these files whose root is accepted at the position by a zone.
fn first_zone<R: Rule>(
    alloc: Global,
    files: &[TableFile],
    position: &Position<R>,
    from: usize,
    to: usize,
) -> Result<Option<usize>, AllocError>
    requires inside { to ≤ length files.now }
    requires accepted { AllByRecursion IsAcceptedFile files.now }
    requires lawful { IsPosition R.KIND position.now }
    ensures zone { IfOk result (IsZoneFound R.KIND files.now position.now from to) }
{
    for k in from..to {
        if has_zone(alloc, &files[k], position)? {
            return Ok(Some(k));
        }
    }
    Ok(None)
}

/// A file whose root is accepted at the position by a zone, where none is a table of the position: the first from `start` on, or else
/// the first before it.
fn some_zone<R: Rule>(
    alloc: Global,
    files: &[TableFile],
    position: &Position<R>,
    start: usize,
) -> Result<Option<usize>, AllocError>
    requires inside { start ≤ length files.now }
    requires accepted { AllByRecursion IsAcceptedFile files.now }
    requires lawful { IsPosition R.KIND position.now }
    ensures zone { IfOk result (IsZoneFound R.KIND files.now position.now 0 (length files.now)) }
{
    match first_zone(alloc, files, position, start, files.len())? {
        Some(k) => Ok(Some(k)),
        None => first_zone(alloc, files, position, 0, start),
    }
}

/// The file that answers at the position, if one does: the first that is a table of it, or else one whose root is accepted there by a
/// zone. There the one that did so first is asked first.
pub(crate) fn answer_at<R: Rule>(
    alloc: Global,
    files: &[TableFile],
    position: &Position<R>,
    first: Option<usize>,
) -> Result<Option<Found>, AllocError>
    requires inside { IsFirst files.now first }
    requires accepted { AllByRecursion IsAcceptedFile files.now }
    ensures answer { IfOk result (IsAnswerTold R.KIND files.now position.now) }
{
    // Its contract says that the position is lawful.
    let _mover = position.side();
    match first_table(R::KIND, position.board(), files) {
        Some(file) => Ok(Some(Found { file, first })),
        None => match some_zone(alloc, files, position, first.unwrap_or(0))? {
            Some(file) => {
                let first = Some(first.unwrap_or(file));
                Ok(Some(Found { file, first }))
            }
            None => Ok(None),
        },
    }
}
