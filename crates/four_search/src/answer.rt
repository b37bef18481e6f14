//! The search for wins by continuous fours, depth after depth.
//!
//! Each depth is searched anew with what is left of the budget, so the first win has the fewest moves; only then is its
//! plan compiled. A depth without a win that looks at no more positions than the one before has seen all that there are:
//! the greater ones look at the same, so they are counted and not searched.
#![tactic(auto)]

ghost use Rattle.std.specs.Prelude.{◌≡◌, ◌↔◌, ◌<◌, ◌≤◌, ◌+◌, ◌*◌, true, false, length, nat_le, if◌then◌else◌, IfOk, IsTrue, OnErr, IsErrOf};
ghost use Rattle.game_rules.specs.Play.{IsPosition, mover, other};
ghost use Rattle.game_rules.specs.Games.{WinsByFours, has_five, wins_by_fours};
ghost use Rattle.strategy_graph.specs.declared.TheConstants.{MAX_NODES};
ghost use Rattle.four_search.specs.declared.TheConstants.{MAX_DEPTH};
ghost use Rattle.four_search.specs.FourGame.{four_cost};
ghost use Rattle.four_search.specs.Roots.{TellsRoot};
ghost use Rattle.strategy_compiler.specs.Growth.{GrowsBy};
ghost use Rattle.four_search.specs.Answers.{OnWin, IsFourWin, IsSoughtOut, is_win as is_win_lem, most_added};

use crate::SearchError;
use crate::memory::FourMemory;
use crate::plan::compile;
use crate::root::{Root, look, look_without_fives};
use crate::search::{Found, Limits, search};
use foul_judge::Seen;
use row_shapes::Rule;
use std::alloc::{AllocError, Global};
use stone_board::Points;
use strategy_compiler::{Compiler, WrittenWin};

/// What the search for wins by fours finds.
#[derive(Clone, Copy, Debug, PartialEq, Eq)]
pub enum FourAnswer {
    /// A win with the fewest moves that there are, whose node is that of its plan.
    Win(WrittenWin),
    /// There is no win by fours within the depth.
    None,
    /// There are more positions to look at than the budget.
    Spent,
}

/// Searches a win by continuous fours for the side to move within `depth` moves, 1 to `MAX_DEPTH`, with a budget of positions to
/// look at, at least 1. A position counts each time that the attacker is to move in it, at each depth that is tried.
///
/// - `Win` has the least number of moves, and the compiler's node stands for the plan of this win: it plays the least
///   five point, and else the least four that wins within the moves left, and answers each reply that goes on. No more
///   than two nodes a move are added.
/// - `None` comes exactly where there is no such win within `depth` moves and the budget suffices.
/// - `Spent` comes exactly where the budget does not suffice. With `None` and `Spent` no node is added.
///
/// `Full` comes only where there is a win, the budget suffices and the compiler has no room for its nodes; `Memory` where
/// there is no memory. After each answer and refusal the view is as before, and the compiler's earlier nodes stay.
pub fn four_search<R: Rule, V: Seen<R>>(
    alloc: Global,
    view: &mut V,
    depth: u32,
    budget: u64,
    compiler: &mut Compiler,
) -> Result<FourAnswer, SearchError>
    requires some_depth { 1 ≤ depth }
    requires depth_fits { depth ≤ MAX_DEPTH }
    requires some_budget { 1 ≤ budget }
    ensures win { IfOk result
        (λ a. OnWin a (IsFourWin R.KIND depth (V.position view.old) compiler.new)) }
    ensures none { IfOk result (λ a. (a ≡ FourAnswer.None)
        ↔ ((wins_by_fours R.KIND depth (V.position view.old) ≡ false) × (four_cost R.KIND depth (V.position view.old) ≤ budget))) }
    ensures no_win { IfOk result
        (λ a. a ≡ FourAnswer.None → ¬ WinsByFours R.KIND depth (V.position view.old)) }
    ensures spent { IfOk result
        (λ a. (a ≡ FourAnswer.Spent) ↔ (budget < four_cost R.KIND depth (V.position view.old))) }
    ensures added { IfOk result (λ a. GrowsBy compiler.old compiler.new (most_added a)) }

    // What a refusal leaves, and when the compiler is full.
    ensures kept { OnErr result (GrowsBy compiler.old compiler.new
        (if wins_by_fours R.KIND depth (V.position view.old) then 2 * depth else 0)) }
    ensures full { IsErrOf result SearchError.Full
        → (wins_by_fours R.KIND depth (V.position view.old) ≡ true) × (four_cost R.KIND depth (V.position view.old) ≤ budget) × (MAX_NODES < length compiler.old + 2 * depth) }
    ensures full_now { IsErrOf result SearchError.Full → length compiler.new ≡ MAX_NODES }
    ensures same { V.position view.new ≡ V.position view.old }
{
    let mut memory = FourMemory::new(alloc);
    four_search_with::<R, V>(alloc, view, depth, budget, &mut memory, compiler)
}

/// Searches the same as `four_search`, with a memory that serves other searches under the rule too. The answer is that of an empty
/// one, whatever it holds: a position that is found counts as if it were looked at. What this search comes to is remembered.
pub fn four_search_with<R: Rule, V: Seen<R>>(
    alloc: Global,
    view: &mut V,
    depth: u32,
    budget: u64,
    memory: &mut FourMemory<R>,
    compiler: &mut Compiler,
) -> Result<FourAnswer, SearchError>
    requires some_depth { 1 ≤ depth }
    requires depth_fits { depth ≤ MAX_DEPTH }
    requires some_budget { 1 ≤ budget }
    ensures win { IfOk result
        (λ a. OnWin a (IsFourWin R.KIND depth (V.position view.old) compiler.new)) }
    ensures none { IfOk result (λ a. (a ≡ FourAnswer.None)
        ↔ ((wins_by_fours R.KIND depth (V.position view.old) ≡ false) × (four_cost R.KIND depth (V.position view.old) ≤ budget))) }
    ensures no_win { IfOk result
        (λ a. a ≡ FourAnswer.None → ¬ WinsByFours R.KIND depth (V.position view.old)) }
    ensures spent { IfOk result
        (λ a. (a ≡ FourAnswer.Spent) ↔ (budget < four_cost R.KIND depth (V.position view.old))) }
    ensures added { IfOk result (λ a. GrowsBy compiler.old compiler.new (most_added a)) }

    // What a refusal leaves, and when the compiler is full.
    ensures kept { OnErr result (GrowsBy compiler.old compiler.new
        (if wins_by_fours R.KIND depth (V.position view.old) then 2 * depth else 0)) }
    ensures full { IsErrOf result SearchError.Full
        → (wins_by_fours R.KIND depth (V.position view.old) ≡ true) × (four_cost R.KIND depth (V.position view.old) ≤ budget) × (MAX_NODES < length compiler.old + 2 * depth) }
    ensures full_now { IsErrOf result SearchError.Full → length compiler.new ≡ MAX_NODES }
    ensures same { V.position view.new ≡ V.position view.old }
{
    match seek::<R, V>(alloc, view, depth, budget, memory) {
        Err(_) => Err(SearchError::Memory),
        Ok(Sought::None) => Ok(FourAnswer::None),
        Ok(Sought::Spent) => Ok(FourAnswer::Spent),
        Ok(Sought::Win { moves, line }) => {
            let node = compile::<R, V>(alloc, view, moves, line.as_slice(), compiler)?;
            Ok(FourAnswer::Win(WrittenWin { node, moves }))
        }
    }
}

/// Whether the search finds a win: there is one within `depth` moves, and the budget suffices. It is not compiled, so that no reply
/// but the blocks is looked at. The view is as before, also where memory ran out, which `Err` says.
pub fn finds_fours<R: Rule, V: Seen<R>>(
    alloc: Global,
    view: &mut V,
    depth: u32,
    budget: u64,
) -> Result<bool, AllocError>
    requires some_depth { 1 ≤ depth }
    requires depth_fits { depth ≤ MAX_DEPTH }
    requires some_budget { 1 ≤ budget }
    ensures found { IfOk result (λ found. IsTrue found
        ↔ ((wins_by_fours R.KIND depth (V.position view.old) ≡ true) × (four_cost R.KIND depth (V.position view.old) ≤ budget))) }
    ensures same { V.position view.new ≡ V.position view.old }
{
    let sought = seek_anew::<R, V>(alloc, view, depth, budget)?;
    Ok(is_win(&sought))
}

/// The same where neither side has a five point, so that none is looked for.
pub fn finds_fours_without_fives<R: Rule, V: Seen<R>>(
    alloc: Global,
    view: &mut V,
    depth: u32,
    budget: u64,
) -> Result<bool, AllocError>
    requires some_depth { 1 ≤ depth }
    requires depth_fits { depth ≤ MAX_DEPTH }
    requires some_budget { 1 ≤ budget }
    requires none { has_five R.KIND (V.position view.old) (mover (V.position view.old)) ≡ false }
    requires safe { has_five R.KIND (V.position view.old) (other (mover (V.position view.old))) ≡ false }
    ensures found { IfOk result (λ found. IsTrue found
        ↔ ((wins_by_fours R.KIND depth (V.position view.old) ≡ true) × (four_cost R.KIND depth (V.position view.old) ≤ budget))) }
    ensures same { V.position view.new ≡ V.position view.old }
{
    let mut memory = FourMemory::new(alloc);
    let root = look_without_fives::<R, V>(alloc, view)?;
    let sought = seek_from::<R, V>(view, &root, depth, budget, &mut memory)?;
    Ok(is_win(&sought))
}

/// What the depths come to.
#[derive(Drop)]
pub(crate) enum Sought {
    /// A win within so many moves and none with fewer, by this line.
    Win { moves: u32, line: Points },
    /// There is no win within the depth.
    None,
    /// There are more positions to look at than the budget.
    Spent,
}

/// Whether there is a win.
fn is_win(sought: &Sought) -> bool
    ensures win { result ≡ is_win_lem sought.now }
{
    matches!(sought, Sought::Win { moves: _, line: _ })
}

/// Searches depth after depth, up to the first win, with a memory of its own. The view is as before, also where memory ran out.
pub(crate) fn seek_anew<R: Rule, V: Seen<R>>(
    alloc: Global,
    view: &mut V,
    depth: u32,
    budget: u64,
) -> Result<Sought, AllocError>
    requires some_depth { 1 ≤ depth }
    requires depth_fits { depth ≤ MAX_DEPTH }
    requires some_budget { 1 ≤ budget }
    ensures sought { IfOk result (IsSoughtOut R.KIND depth budget (V.position view.old)) }
    ensures lawful { IsPosition R.KIND (V.position view.old) }
    ensures same { V.position view.new ≡ V.position view.old }
{
    let mut memory = FourMemory::new(alloc);
    seek::<R, V>(alloc, view, depth, budget, &mut memory)
}

/// Searches depth after depth, up to the first win. The view is as before, also where memory ran out.
fn seek<R: Rule, V: Seen<R>>(
    alloc: Global,
    view: &mut V,
    depth: u32,
    budget: u64,
    memory: &mut FourMemory<R>,
) -> Result<Sought, AllocError>
    requires some_depth { 1 ≤ depth }
    requires depth_fits { depth ≤ MAX_DEPTH }
    requires some_budget { 1 ≤ budget }
    ensures sought { IfOk result (IsSoughtOut R.KIND depth budget (V.position view.old)) }
    ensures lawful { IsPosition R.KIND (V.position view.old) }
    ensures same { V.position view.new ≡ V.position view.old }
{
    // This tells that the position is lawful.
    view.side();
    let root = look::<R, V>(alloc, view)?;
    seek_from::<R, V>(view, &root, depth, budget, memory)
}

/// The same where the first position is looked at already.
fn seek_from<R: Rule, V: Seen<R>>(
    view: &mut V,
    root: &Root,
    depth: u32,
    budget: u64,
    memory: &mut FourMemory<R>,
) -> Result<Sought, AllocError>
    requires some_depth { 1 ≤ depth }
    requires depth_fits { depth ≤ MAX_DEPTH }
    requires some_budget { 1 ≤ budget }
    requires root { TellsRoot R.KIND (V.position view.old) root.now }
    ensures sought { IfOk result (IsSoughtOut R.KIND depth budget (V.position view.old)) }
    ensures lawful { IsPosition R.KIND (V.position view.old) }
    ensures same { V.position view.new ≡ V.position view.old }
{
    // This tells that the position is lawful.
    view.side();
    let mut left = budget;
    let mut before = 0;
    for done in 0..depth {
        let moves = done + 1;
        let limits = Limits {
            moves,
            budget: left,
        };
        match search::<R, V>(view, root, limits, memory)? {
            Found::Spent => return Ok(Sought::Spent),
            Found::NoWin { left: rest } => {
                let looked = left - rest;
                if looked == before {
                    return Ok(all_alike(looked, depth - moves, rest));
                }
                before = looked;
                left = rest;
            }
            Found::Win { left: _, line } => return Ok(Sought::Win { moves, line }),
        }
    }
    Ok(Sought::None)
}

/// The answer where each of the depths that are left looks at so many positions, and none has a win.
fn all_alike(looked: u64, depths: u32, left: u64) -> Sought
    requires some { 0 < looked }
    ensures answer { result ≡ (if nat_le (depths * looked) left then Sought.None else Sought.Spent) }
{
    if u64::from(depths) <= left / looked {
        Sought::None
    } else {
        Sought::Spent
    }
}
