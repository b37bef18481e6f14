//! The walk through a table.
//!
//! The walk goes through the games that the table plays. The nodes whose replies are being met stand in a list, each with how
//! far they are met, so that the walk takes no more of the program's stack where a table is deep. It plays and takes back on
//! the position that it was lent. A node that was walked through at the same position before is not walked again, where the
//! memo has the pair.
//!
//! Where the attack of the node of the rest is a five point already before the replies, that is asked once. If the side to
//! reply has no five point then, most replies are met at once: they go on, and that node wins. They are counted without being
//! asked, and only those that are listed, and the one on that point, are walked. Where all empty points are listed, those alone
//! are asked too. Whether a side has a five point is known from its last reply, which made it, so that no board is scanned but
//! the first.
//!
//! A fault ends the walk, and the moves that led there are noted on the way back, the last one first.
#![tactic(auto)]

ghost use Rattle.std.specs.Prelude.{◌≡◌, ◌<◌, ◌≤◌, ◌+◌, ◌*◌, [], true, false, ℕ, List, length, slice_get, Some, IfSome, OnOk};
ghost use Rattle.game_rules.specs.Grid.{lift};
ghost use Rattle.game_rules.specs.Games.{has_five};
ghost use Rattle.game_rules.specs.Play.{after, outcome, mover};
ghost use Rattle.game_rules.specs.declared.RuleKind.{RuleKind as AnyRule};
ghost use Rattle.strategy_graph.specs.Lent.{lent_node};
ghost use Rattle.strategy_graph.specs.Tables.{Answers, IsTable, answer as answer_lem, is_winning, names_below};
ghost use Rattle.strategy_graph.specs.declared.Node.{Node as AnyNode};
ghost use Rattle.strategy_graph.specs.Acceptance.{AcceptedStart};
ghost use Rattle.strategy_graph.specs.Arrivals.{arrivals, start_arrivals};
ghost use Rattle.strategy_graph.specs.Leads.{LeadsStart};
ghost use Rattle.strategy_graph.specs.Roots.{AcceptedRoot, LeadsRoot, root_arrivals, root_below};
ghost use Rattle.strategy_checker.specs.Walks.{AreFives, IsNoted, IsReady, IsTrueMemo, IsWalked, Takes, Walked, WalkedNode, WalkedReply};
ghost use Rattle.strategy_checker.specs.Meetings.{Entered, IsStage, Settled, Stops, Waits, WentOn, left_at, to_do};

use crate::Why;
use crate::meeting::{Meeting, begun};
use crate::outlook::{Fives, known_after, leaves_none, told};
use foul_judge::{Outcome, Position, Seen};
use position_table::LateTable;
use row_shapes::Rule;
use std::alloc::Global;
use stone_board::{Point, Points};
use strategy_graph::{LentNode, Root, Start, Table};

/// The most pairs of a node and a position that a walk remembers.
const MEMO_ENTRIES: u32 = 65_536;

/// The least arrivals of a pair that is remembered. Fewer are walked again in about the time of a look.
const LEAST_ARRIVALS: u64 = 64;

/// How many such pairs pass before any is remembered.
const PAIRS_BEFORE: u32 = 64;

/// The most replies that a node lists which is not remembered, since it is walked in a few steps.
const FEW_REPLIES: usize = 12;

/// The most replies that such a node lists where it is one step longer. So few have fewer arrivals than are remembered.
const FEWER_REPLIES: usize = 6;

/// Why a walk ends before every reply is met.
#[derive(Clone, Copy)]
pub(crate) enum Stop {
    /// The table has this fault.
    Fault(Why),
    /// No arrival is left.
    Spent,
    /// There is no memory for the line to the fault.
    Memory,
}

/// A walk through a table.
#[derive(Drop)]
pub(crate) struct Walk {
    /// How many more arrivals there may be.
    pub(crate) left: u64,
    /// The moves that led to the fault, the last one first. There are none before a fault is found.
    pub(crate) line: Points,
    /// The arrivals of the nodes that were accepted, each under its position and with the node as tag.
    memo: LateTable,
    alloc: Global,
}

/// A node whose attack is played, and whose replies are being met.
#[derive(Drop)]
pub(crate) struct Stage {
    node: u32,
    /// The arrivals that were left before it.
    before: u64,
    meeting: Meeting,
}

impl Walk {
    /// A walk with so many arrivals at most. It takes no memory.
    pub(crate) fn new(alloc: Global, work: u64) -> Walk
        ensures left { result.left ≡ work }
        ensures line { result.line ≡ [] }
        ensures memo { (rule : AnyRule) → (t : List AnyNode) → IsTrueMemo rule t result.memo }
    {
        Walk {
            left: work,
            line: Points::new(alloc),
            memo: LateTable::new(alloc, MEMO_ENTRIES, LEAST_ARRIVALS, PAIRS_BEFORE),
            alloc,
        }
    }

    /// Walks from a root at a position, which is the same afterwards.
    pub(crate) fn visit_root<R: Rule>(
        &mut self,
        table: &Table,
        root: &Root,
        position: &mut Position<R>,
    ) -> Result<(), Stop>
        requires below { root_below root.now (length table.now) ≡ true }
        requires ready { IsReady R.KIND table.now position.old self.old }
        ensures walked { Walked R.KIND table.now (AcceptedRoot R.KIND table.now root.now position.old)
            (root_arrivals R.KIND table.now root.now position.old)
            (LeadsRoot R.KIND table.now root.now position.old) self.old self.new result }
        ensures same { position.new ≡ position.old }
    {
        match root {
            Root::Attack(number) => self.visit_node(table, *number, position),
            Root::Defend(start) => self.visit_start(table, start, position),
        }
    }

    /// Walks from a node at a position, which is the same afterwards.
    pub(crate) fn visit_node<R: Rule>(
        &mut self,
        table: &Table,
        i: u32,
        position: &mut Position<R>,
    ) -> Result<(), Stop>
        requires in_table { i < length table.now }
        requires ready { IsReady R.KIND table.now position.old self.old }
        ensures walked { WalkedNode R.KIND table.now i position.old self.old self.new result }
        ensures same { position.new ≡ position.old }
    {
        let fives = position.fives_in_short(position.side().other());
        self.visit(table, i, Fives::Told(fives), position)
    }

    /// Walks from a start at a position, which is the same afterwards.
    pub(crate) fn visit_start<R: Rule>(
        &mut self,
        table: &Table,
        start: &Start,
        position: &mut Position<R>,
    ) -> Result<(), Stop>
        requires below { names_below start.now (length table.now) ≡ true }
        requires ready { IsReady R.KIND table.now position.old self.old }
        ensures walked { Walked R.KIND table.now (AcceptedStart R.KIND table.now start.now position.old)
            (start_arrivals R.KIND table.now start.now position.old)
            (LeadsStart R.KIND table.now start.now position.old) self.old self.new result }
        ensures same { position.new ≡ position.old }
    {
        self.take(1)?;
        let free = !position.has_five(position.side());
        let mut meeting = begun(free);
        loop {
            match self.next(
                table,
                start.replies().as_slice(),
                start.rest(),
                &mut meeting,
                position,
            )? {
                None => return Ok(()),
                Some(next) => {
                    self.answer(table, next, meeting.outlook.free, position, meeting.reply)?;
                }
            }
        }
    }

    /// Walks on from the reply `q`, which goes on and is answered by the node `next`. The position is the same afterwards.
    fn answer<R: Rule>(
        &mut self,
        table: &Table,
        next: u32,
        free: bool,
        position: &mut Position<R>,
        q: Point,
    ) -> Result<(), Stop>
        requires in_table { next < length table.now }
        requires goes_on { outcome R.KIND position.old q ≡ Outcome.GoesOn }
        requires ready { IsReady R.KIND table.now position.old self.old }
        requires free { free ≡ true → has_five R.KIND position.old (mover position.old) ≡ false }

        // The same by all answers that answer the reply by this node.
        ensures walked { (a : Answers) → answer_lem a q ≡ Some next
            → WalkedReply R.KIND table.now a position.old q self.old self.new result }
        ensures same { position.new ≡ position.old }
    {
        let fives = known_after(free, q);
        position.play(q);
        let walked = self.visit(table, next, fives, position);
        position.undo(q);
        match walked {
            Ok(()) => Ok(()),
            Err(stop) => Err(self.noted(q, stop)),
        }
    }

    /// Walks from a node at a position, which is the same afterwards. `fives` tells the five points of the side that is not
    /// to move, where they are known.
    fn visit<R: Rule>(
        &mut self,
        table: &Table,
        i: u32,
        fives: Fives,
        position: &mut Position<R>,
    ) -> Result<(), Stop>
        requires in_table { i < length table.now }
        requires ready { IsReady R.KIND table.now position.old self.old }
        requires fives { AreFives R.KIND position.old fives }
        ensures walked { WalkedNode R.KIND table.now i position.old self.old self.new result }
        ensures same { position.new ≡ position.old }
    {
        let mut waiting = Vec::new(self.alloc);
        let mut walked = self.enter(table, i, fives, position);
        loop {
            walked = match walked {
                Ok(entered) => match entered {
                    Some(stage) => self.go_on(table, stage, &mut waiting, position),
                    None => match waiting.pop() {
                        None => return Ok(()),
                        Some(last) => {
                            position.undo(last.meeting.reply);
                            self.go_on(table, last, &mut waiting, position)
                        }
                    },
                },
                Err(stop) => match waiting.pop() {
                    None => return Err(stop),
                    Some(last) => Err(self.give_up(table, &last, stop, position)),
                },
            };
        }
    }

    /// Asks the attack of a node. Where the memo has the node at the position, its arrivals are taken at once. If the attack goes
    /// on it stays played, and the node is answered as an open one; else the position is the same afterwards.
    fn enter<R: Rule>(
        &mut self,
        table: &Table,
        i: u32,
        fives: Fives,
        position: &mut Position<R>,
    ) -> Result<Option<Stage>, Stop>
        requires in_table { i < length table.now }
        requires ready { IsReady R.KIND table.now position.old self.old }
        requires fives { AreFives R.KIND position.old fives }
        ensures entered { Entered R.KIND table.now i position.old self.old.left self.new position.new result }
        ensures fewer { OnOk result (self.new.left < self.old.left) }
    {
        let node = table.node(i);
        if let Some(arrivals) = self.look(table, i, node, position) {
            self.take(arrivals)?;
            return Ok(None);
        }
        match position.outcome(node.attack) {
            Outcome::Refused => Err(self.fault(node.attack, Why::AttackRefused)),
            Outcome::Wins => {
                self.take(1)?;
                Ok(None)
            }
            Outcome::Fouls(_) => Err(self.fault(node.attack, Why::AttackFouls)),
            Outcome::Draws => Err(self.fault(node.attack, Why::AttackDraws)),
            Outcome::GoesOn => {
                if node.rest.is_winning() {
                    return Err(self.fault(node.attack, Why::NotWon));
                }
                self.open(table, i, node, fives, position)
            }
        }
    }

    /// Plays the attack of a node, which goes on.
    fn open<R: Rule>(
        &mut self,
        table: &Table,
        i: u32,
        node: LentNode,
        fives: Fives,
        position: &mut Position<R>,
    ) -> Result<Option<Stage>, Stop>
        requires table { IsTable table.now }
        requires node { slice_get table.now i ≡ Some (lent_node node) }
        requires goes_on { outcome R.KIND position.old node.attack ≡ Outcome.GoesOn }
        requires more { is_winning node.rest ≡ false }
        requires ready { IsReady R.KIND table.now position.old self.old }
        requires fives { AreFives R.KIND position.old fives }
        ensures entered { Entered R.KIND table.now i position.old self.old.left self.new position.new result }
        ensures fewer { OnOk result (self.new.left < self.old.left) }
    {
        let before = self.left;
        self.take(1)?;
        let free = leaves_none(told(fives, position), node.attack);
        position.play(node.attack);
        Ok(Some(Stage {
            node: i,
            before,
            meeting: begun(free),
        }))
    }

    /// Meets the replies to the attack of an open node until one has to be walked from, or to the end.
    fn go_on<R: Rule>(
        &mut self,
        table: &Table,
        mut stage: Stage,
        waiting: &mut Vec<Stage>,
        position: &mut Position<R>,
    ) -> Result<Option<Stage>, Stop>
        requires in_table { stage.node < length table.now }
        requires ready { IsReady R.KIND table.now position.old self.old }
        requires stage { (n : AnyNode) → slice_get table.now stage.node ≡ Some n
            → IsStage R.KIND table.now n position.old stage (left_at n position.old stage) self.old.left }
        ensures went_on { (n : AnyNode) → slice_get table.now stage.node ≡ Some n
            → WentOn R.KIND table.now n position.old stage waiting.old.items waiting.new.items self.new
            position.new result }
        ensures fewer { to_do self.new.left (length waiting.new.items) result < 3 * self.old.left + length waiting.old.items + 3 }
    {
        let node = table.node(stage.node);
        let met = self.next(table, node.replies, node.rest, &mut stage.meeting, position);
        match met {
            Ok(found) => match found {
                Some(next) => self.go_down(table, stage, next, waiting, position),
                None => {
                    self.leave(table, &stage, position);
                    Ok(None)
                }
            },
            Err(stop) => {
                position.undo(node.attack);
                Err(self.noted(node.attack, stop))
            }
        }
    }

    /// Plays the reply of an open node, and enters the node that answers it. The open node waits.
    fn go_down<R: Rule>(
        &mut self,
        table: &Table,
        stage: Stage,
        next: u32,
        waiting: &mut Vec<Stage>,
        position: &mut Position<R>,
    ) -> Result<Option<Stage>, Stop>
        requires in_table { stage.node < length table.now }
        requires ready { IsReady R.KIND table.now position.old self.old }
        requires below { next < length table.now }
        requires waits { (n : AnyNode) → slice_get table.now stage.node ≡ Some n
            → Waits R.KIND table.now n position.old stage next self.old.left }
        ensures went_on { (n : AnyNode) → slice_get table.now stage.node ≡ Some n
            → WentOn R.KIND table.now n position.old stage waiting.old.items waiting.new.items self.new
            position.new result }
        ensures fewer { to_do self.new.left (length waiting.new.items) result < 3 * self.old.left + length waiting.old.items + 3 }
    {
        let attack = table.node(stage.node).attack;
        let q = stage.meeting.reply;
        let fives = known_after(stage.meeting.outlook.free, q);
        if waiting.push(stage).is_err() {
            position.undo(attack);
            return Err(Stop::Memory);
        }
        position.play(q);
        self.enter(table, next, fives, position)
    }

    /// Takes back the attack of a node whose replies are met, and remembers its arrivals.
    fn leave<R: Rule>(&mut self, table: &Table, stage: &Stage, position: &mut Position<R>)
        requires in_table { stage.now.node < length table.now }
        requires ready { IsReady R.KIND table.now position.old self.old }
        requires stage { (n : AnyNode) → slice_get table.now stage.now.node ≡ Some n
            → IsStage R.KIND table.now n position.old stage.now [] self.old.left }
        ensures settled { (n : AnyNode) → slice_get table.now stage.now.node ≡ Some n
            → Settled R.KIND table.now stage.now.node (lift position.old n.attack) stage.now.before self.new }
        ensures undone { (n : AnyNode) → slice_get table.now stage.now.node ≡ Some n → position.new ≡ lift position.old n.attack }
        ensures left { self.new.left ≡ self.old.left }
    {
        let node = table.node(stage.node);
        position.undo(node.attack);
        self.keep(table, stage.node, node, position, stage.before - self.left);
    }

    /// Takes back the reply and the attack of a node that waits for one where the walk has stopped, and notes them.
    fn give_up<R: Rule>(
        &mut self,
        table: &Table,
        stage: &Stage,
        stop: Stop,
        position: &mut Position<R>,
    ) -> Stop
        requires in_table { stage.now.node < length table.now }
        requires waits { (n : AnyNode) → slice_get table.now stage.now.node ≡ Some n
            → (i : ℕ) × ((start : ℕ) × Waits R.KIND table.now n (lift position.old stage.now.meeting.reply) stage.now i start) }
        requires there { after (lift position.old stage.now.meeting.reply) stage.now.meeting.reply ≡ position.old }
        ensures stops { (n : AnyNode) (i start : ℕ)
            → Waits R.KIND table.now n (lift position.old stage.now.meeting.reply) stage.now i start
            → Stops R.KIND table.now i position.old start self.old stop
            → Stops R.KIND table.now stage.now.node (lift (lift position.old stage.now.meeting.reply) n.attack)
            stage.now.before self.new result }
        ensures undone { (n : AnyNode) → slice_get table.now stage.now.node ≡ Some n
            → position.new ≡ lift (lift position.old stage.now.meeting.reply) n.attack }
    {
        let attack = table.node(stage.node).attack;
        position.undo(stage.meeting.reply);
        let last = self.noted(stage.meeting.reply, stop);
        position.undo(attack);
        self.noted(attack, last)
    }

    /// The arrivals of the node at the position, where they are remembered. A node that is walked again in less time than a look
    /// takes is not looked for.
    fn look<R: Rule>(
        &mut self,
        table: &Table,
        i: u32,
        node: LentNode,
        position: &Position<R>,
    ) -> Option<u64>
        requires in_table { i < length table.now }
        requires ready { IsReady R.KIND table.now position.now self.old }
        ensures found { IfSome result (IsWalked R.KIND table.now position.now i) }
        ensures ready { IsReady R.KIND table.now position.now self.new }
        ensures left { self.new.left ≡ self.old.left }
    {
        if is_soon_won(table, i, node) {
            None
        } else {
            self.memo.find(position.board(), i)
        }
    }

    /// Remembers the arrivals of the node at the position, unless it is not looked for. Without memory for them it is walked again.
    fn keep<R: Rule>(
        &mut self,
        table: &Table,
        i: u32,
        node: LentNode,
        position: &Position<R>,
        arrivals: u64,
    )
        requires in_table { i < length table.now }
        requires ready { IsReady R.KIND table.now position.now self.old }
        requires walked { IsWalked R.KIND table.now position.now i arrivals }
        ensures ready { IsReady R.KIND table.now position.now self.new }
        ensures left { self.new.left ≡ self.old.left }
    {
        if !is_soon_won(table, i, node) {
            let _ = self.memo.keep(position.board(), i, arrivals);
        }
    }

    /// Counts so many arrivals at once.
    pub(crate) fn take(&mut self, arrivals: u64) -> Result<(), Stop>
        ensures takes { Takes arrivals self.old self.new result }
        ensures left { self.new.left ≤ self.old.left }
    {
        if self.left < arrivals {
            return Err(Stop::Spent);
        }
        self.left -= arrivals;
        Ok(())
    }

    /// The stop at a fault of the move `p`, which is noted.
    pub(crate) fn fault(&mut self, p: Point, why: Why) -> Stop
        ensures noted { IsNoted p self.old.line self.new.line (Stop.Fault why) result }
        ensures left { self.new.left ≡ self.old.left }
    {
        match self.line.push(p) {
            Ok(()) => Stop::Fault(why),
            Err(_) => Stop::Memory,
        }
    }

    /// The stop behind the move `p`, which is noted where a fault is behind it.
    pub(crate) fn noted(&mut self, p: Point, stop: Stop) -> Stop
        ensures noted { IsNoted p self.old.line self.new.line stop result }
        ensures left { self.new.left ≡ self.old.left }
    {
        match stop {
            Stop::Fault(why) => self.fault(p, why),
            Stop::Spent => Stop::Spent,
            Stop::Memory => Stop::Memory,
        }
    }
}

/// Whether node `i` is walked in a few steps: it is a winning node, or lists few replies, and each node that it names names no
/// other. Where it answers no others and lists fewer still, that may be one step later.
fn is_soon_won(table: &Table, i: u32, node: LentNode) -> bool
    requires in_table { i < length table.now }
{
    if node.rest.is_winning() {
        return true;
    }
    let depth = table.depth(i).unwrap();
    let replies = node.replies.len();
    depth <= 2 && replies <= FEW_REPLIES
        || depth == 3 && replies <= FEWER_REPLIES && node.rest.node().is_none()
}
