//! The walk through the lists of some number of threats, in their order.
//!
//! Each list that is completed is looked at, for 1 of the budget. The threats on the way are kept in a path, which is as before
//! after each answer. Boards from which no list has a final point are remembered, with how many lists there are: these are counted
//! at once where the board is met again.
#![tactic(auto)]

ghost use Rattle.std.specs.Prelude.{◌≡◌, ℕ, ◌-◌, ◌<◌, ◌≤◌, true, ◌++◌, [], ◌∷◌, map, length, IfOk, OnOk};
ghost use Rattle.game_rules.specs.Grid.{IsBoard};
ghost use Rattle.threat_moves.specs.Threats.{threats_of};
ghost use Rattle.threat_space.specs.Sequences.{played_all, final_of as final_of_lem, lists_of, lists_from};
ghost use Rattle.threat_space.specs.Lines.{HasPairsAfter, HasPairsOf};
ghost use Rattle.threat_space.specs.Looking.{looked};
ghost use Rattle.threat_space.specs.Barren.{AreBarren, IsBarren, passed as passed_lem};
ghost use Rattle.threat_space.specs.declared.walk.FoundInLists.TheVariants.{NoSequence};

use crate::barren::BarrenBoards;
use crate::boards::played;
use crate::needs::finals_of;
use crate::pairs::pairs;
use open_windows::window_points;
use row_shapes::Rule;
use std::alloc::{AllocError, Global};
use stone_board::{Board, Point, Points, Side};
use threat_moves::{Threat, Threats, threats_at};

/// What is found among some lists, with what is left of the budget.
#[derive(Drop)]
pub(crate) enum FoundInLists {
    /// The first sequence among them: its threats, and its final point.
    Sequence(Threats, Point),
    /// None of them is one; so much of the budget is left.
    NoSequence(u64),
    /// There are more of them than the budget.
    Spent,
}

/// What a walk through some lists comes to.
#[derive(Drop)]
pub(crate) struct Walked {
    /// What is found among them.
    pub(crate) found: FoundInLists,
    /// True only where none of them has a final point, wherever they began.
    pub(crate) barren: bool,
}

/// What a walk goes by, from its first list to its last.
#[derive(Drop)]
pub(crate) struct Origin<'a> {
    /// Where its lists take memory.
    pub(crate) alloc: Global,
    /// The board on which the first threat of each list is played.
    pub(crate) start: &'a Board,
    /// The side whose threats they are.
    pub(crate) side: Side,
}

/// What a walk carries with it.
#[derive(Drop)]
pub(crate) struct Trail<R: Rule> {
    /// The threats on the way to the board.
    pub(crate) path: Threats,
    /// What is remembered of boards that were met before.
    pub(crate) memory: BarrenBoards<R>,
}

/// What comes after the threats of the path.
#[derive(Drop)]
pub(crate) struct ToCome<'a> {
    /// So many threats more.
    pub(crate) more: u32,
    /// Where these are none, the pairs that lie far from the last gain.
    pub(crate) far: &'a [Point],
}

/// Looks at the lists that begin with those of the path, which leads from the first board to this one, and go on with exactly so
/// many threats more. The board is as before, and with an answer the path.
#[cycle(walk)]
pub(crate) fn walk<R: Rule>(
    origin: &Origin,
    board: &mut Board,
    to_come: &ToCome,
    trail: &mut Trail<R>,
    budget: u64,
) -> Result<Walked, AllocError>
    requires played { board.old ≡ played_all origin.now.start.now origin.now.side trail.old.path }
    requires far { to_come.now.more ≡ 0 → HasPairsAfter R.KIND board.old origin.now.side trail.old.path to_come.now.far.now }
    requires side { trail.old.memory.side ≡ origin.now.side }
    ensures looked { IfOk result (λ walked. walked.found ≡ looked (final_of_lem R.KIND origin.now.side origin.now.start.now) budget
        (map (λ ts. trail.old.path ++ ts) (lists_of R.KIND origin.now.side to_come.now.more board.old))) }
    ensures barren { IfOk result (λ walked. walked.barren ≡ true → AreBarren R.KIND origin.now.side board.old trail.old.path
        (lists_of R.KIND origin.now.side to_come.now.more board.old)) }
    ensures same { board.new ≡ board.old }
    ensures path { IfOk result (λ walked. trail.new.path ≡ trail.old.path) }
    ensures side { trail.new.memory.side ≡ trail.old.memory.side }
{
    if to_come.more == 0 {
        return look_at::<R>(origin, board, &trail.path, to_come.far, budget);
    }
    // So it is whatever led to the board: the lists are counted without a walk.
    if let Some(count) = trail.memory.find(board, to_come.more) {
        return Ok(Walked {
            found: passed(count, budget),
            barren: true,
        });
    }
    let threats = all_threats::<R>(origin.alloc, board, origin.side)?;
    let far = pairs_before_last::<R>(
        origin.alloc,
        board,
        origin.side,
        to_come.more,
        threats.len(),
    )?;
    let next = ToCome {
        more: to_come.more - 1,
        far: far.as_slice(),
    };
    let walked = walk_from::<R>(origin, board, threats.as_slice(), &next, trail, budget)?;
    remember::<R>(board, to_come.more, &walked, &mut trail.memory, budget);
    Ok(walked)
}

/// All threats of the side, in the order of threats. The board is as before.
fn all_threats<R: Rule>(alloc: Global, board: &mut Board, side: Side) -> Result<Threats, AllocError>
    ensures threats { IfOk result (λ found. found ≡ threats_of R.KIND board.old side) }
    ensures same { board.new ≡ board.old }
    ensures board { IsBoard board.old }
{
    let windows = window_points(board, side, 2);
    let mut found = Threats::new(alloc);
    for gain in windows.points(board) {
        let more = threats_at::<R>(alloc, board, side, gain)?;
        add_copies(alloc, &mut found, more.as_slice())?;
    }
    Ok(found)
}

/// Adds copies of these threats at the end of the others.
fn add_copies(alloc: Global, found: &mut Threats, more: &[Threat]) -> Result<(), AllocError>
    ensures longer { OnOk result (found.new ≡ found.old ++ more.now) }
{
    for threat in more {
        lengthen(alloc, found, threat)?;
    }
    Ok(())
}

/// The pairs of the board where just one threat more is to come, and is one of so many, and else none.
fn pairs_before_last<R: Rule>(
    alloc: Global,
    board: &Board,
    side: Side,
    more: u32,
    count: usize,
) -> Result<Points, AllocError>
    ensures pairs { IfOk result (λ found. more ≡ 1 → 0 < count → HasPairsOf R.KIND board.now side found) }
{
    if more == 1 && count > 0 {
        return pairs::<R>(alloc, board, side);
    }
    Ok(Points::new(alloc))
}

/// Remembers of the board that its lists of exactly so many threats are barren, where all of them were looked at within this budget
/// and are. Where there is no memory the board is not remembered, and nothing else changes.
fn remember<R: Rule>(
    board: &Board,
    more: u32,
    walked: &Walked,
    memory: &mut BarrenBoards<R>,
    budget: u64,
)
    requires barren { walked.now.barren ≡ true → (left : ℕ) → walked.now.found ≡ NoSequence left
        → (left ≤ budget) × IsBarren R.KIND memory.old.side board.now more (budget - left) }
    ensures side { memory.new.side ≡ memory.old.side }
{
    if !walked.barren {
        return;
    }
    if let FoundInLists::NoSequence(left) = &walked.found {
        let _ = memory.keep(board, more, budget - *left);
    }
}

/// What is found where so many lists are looked at within this budget, and none of them has a final point.
fn passed(count: u64, budget: u64) -> FoundInLists
    ensures passed { result ≡ passed_lem count budget }
{
    if count <= budget {
        return FoundInLists::NoSequence(budget - count);
    }
    FoundInLists::Spent
}

/// Looks at the lists that begin with those of the path, go on with one of these threats, and then with so many more. Where these
/// are none, the pairs are those of the board.
#[cycle(walk)]
fn walk_from<R: Rule>(
    origin: &Origin,
    board: &Board,
    threats: &[Threat],
    to_come: &ToCome,
    trail: &mut Trail<R>,
    budget: u64,
) -> Result<Walked, AllocError>
    requires played { board.now ≡ played_all origin.now.start.now origin.now.side trail.old.path }
    requires board { IsBoard board.now }
    requires far { to_come.now.more ≡ 0 → 0 < length threats.now → HasPairsOf R.KIND board.now origin.now.side to_come.now.far.now }
    requires side { trail.old.memory.side ≡ origin.now.side }
    ensures looked { IfOk result (λ walked. walked.found ≡ looked (final_of_lem R.KIND origin.now.side origin.now.start.now) budget
        (map (λ ts. trail.old.path ++ ts)
        (lists_from (lists_of R.KIND origin.now.side to_come.now.more) origin.now.side board.now threats.now))) }
    ensures barren { IfOk result (λ walked. walked.barren ≡ true → AreBarren R.KIND origin.now.side board.now []
        (lists_from (lists_of R.KIND origin.now.side to_come.now.more) origin.now.side board.now threats.now)) }
    ensures path { IfOk result (λ walked. trail.new.path ≡ trail.old.path) }
    ensures side { trail.new.memory.side ≡ trail.old.memory.side }
{
    let mut left = budget;
    let mut barren = true;
    for threat in threats {
        let mut next = played(board, origin.side, threat)?;
        lengthen(origin.alloc, &mut trail.path, threat)?;
        let walked = walk::<R>(origin, &mut next, to_come, trail, left)?;
        trail.path.drop_last();
        barren &= walked.barren;
        match walked.found {
            FoundInLists::NoSequence(rest) => left = rest,
            found => {
                return Ok(Walked {
                    found,
                    barren: false,
                });
            }
        }
    }
    Ok(Walked {
        found: FoundInLists::NoSequence(left),
        barren,
    })
}

/// Adds a copy of the threat at the end of the path.
fn lengthen(alloc: Global, path: &mut Threats, threat: &Threat) -> Result<(), AllocError>
    ensures longer { OnOk result (path.new ≡ path.old ++ threat.now ∷ []) }
{
    path.push(threat.copy(alloc)?)
}

/// Looks at the list of the path, which leads from the first board to this one. The board is as before.
fn look_at<R: Rule>(
    origin: &Origin,
    board: &mut Board,
    path: &Threats,
    far: &[Point],
    budget: u64,
) -> Result<Walked, AllocError>
    requires played { board.old ≡ played_all origin.now.start.now origin.now.side path.now }
    requires far { HasPairsAfter R.KIND board.old origin.now.side path.now far.now }
    ensures looked { IfOk result (λ walked. walked.found ≡ looked (final_of_lem R.KIND origin.now.side origin.now.start.now) budget
        (path.now ∷ [])) }
    ensures barren { IfOk result (λ walked. walked.barren ≡ true → AreBarren R.KIND origin.now.side board.old path.now ([] ∷ [])) }
    ensures same { board.new ≡ board.old }
{
    if budget == 0 {
        return Ok(Walked {
            found: FoundInLists::Spent,
            barren: false,
        });
    }
    let finals = finals_of::<R>(origin.start, board, origin.side, path.as_slice(), far)?;
    match finals.least {
        Some(last) => Ok(Walked {
            found: FoundInLists::Sequence(path.copy(origin.alloc)?, last),
            barren: false,
        }),
        None => Ok(Walked {
            found: FoundInLists::NoSequence(budget - 1),
            barren: finals.barren,
        }),
    }
}
