//! The replies at a position, which a walk asks one after another.
//!
//! Which replies it asks is planned once: all of them, or those that are listed and one more, where it is known of the others that
//! they are met. It stops at each reply that has to be walked from, and goes on behind it later.
#![tactic(auto)]

ghost use Rattle.std.specs.Prelude.{◌≡◌, ◌<◌, ◌≤◌, [], ◌∷◌, true, false, length, Some, IfSome, MatchOption};
ghost use Rattle.game_rules.specs.Grid.{points_of};
ghost use Rattle.strategy_graph.specs.Tables.{Answers, answer as answer_lem, is_rising, listed_node, names_below, rest_node};
ghost use Rattle.strategy_checker.specs.Walks.{IsOutlook, IsReady};
ghost use Rattle.strategy_checker.specs.Meetings.{Advanced, Asked, IsWhole, Planned, all_to_ask, apart_points, to_ask};

use crate::Why;
use crate::others::{is_listed, listed_empties, others_going_on};
use crate::outlook::{Outlook, outcome_of, outlook_of, sure_of, wins_for_sure};
use crate::walk::{Stop, Walk};
use foul_judge::{Outcome, Position, Seen};
use row_shapes::Rule;
use stone_board::{Board, Point, ReadingOrder};
use strategy_graph::{Reply, Rest, Table, answer_among};

/// The replies that are still to be asked.
#[derive(Drop)]
pub(crate) enum Course {
    /// Those on these points.
    Each(ReadingOrder),
    /// Those that are listed, from this one on.
    Listed(usize),
    /// Those that are listed, from this one on, and then the one on this point.
    ListedThen(usize, Point),
}

/// How far the replies at a position are met.
#[derive(Drop)]
pub(crate) struct Meeting {
    pub(crate) outlook: Outlook,
    /// The replies that are still to be asked: all of them, if no course is set.
    pub(crate) course: Option<Course>,
    /// The reply that is walked from.
    pub(crate) reply: Point,
}

impl Walk {
    /// Goes on to the next reply that has to be walked from, which is set in the meeting, and answers the node that answers it, or
    /// to the end of the replies. The position is the same afterwards.
    pub(crate) fn next<R: Rule>(
        &mut self,
        table: &Table,
        replies: &[Reply],
        rest: Rest,
        meeting: &mut Meeting,
        position: &mut Position<R>,
    ) -> Result<Option<u32>, Stop>
        requires below { names_below (record { replies = replies.now; rest = rest }) (length table.now) ≡ true }
        requires rising { is_rising replies.now ≡ true }
        requires ready { IsReady R.KIND table.now position.old self.old }
        requires outlook { IsOutlook R.KIND table.now position.old meeting.old.outlook }
        ensures advanced { Advanced R.KIND table.now (record { replies = replies.now; rest = rest }) position.old
            (all_to_ask position.old replies.now meeting.old.course) meeting.new.reply
            (all_to_ask position.old replies.now meeting.new.course) self.old.left self.new result }
        ensures outlook { IsOutlook R.KIND table.now position.old meeting.new.outlook }
        ensures left { self.new.left ≤ self.old.left }
        ensures same { position.new ≡ position.old }
    {
        let mut course = self.course(table, replies, rest, meeting, position)?;
        while let Some((q, listed)) = advance(&mut course, replies) {
            if listed.is_none() && !position.board().is_empty(q) {
                continue;
            }
            let answer = answer_of(replies, rest, q, listed);
            match self.ask(table, meeting.outlook, q, answer, position)? {
                None => {}
                Some(next) => {
                    meeting.course = Some(course);
                    meeting.reply = q;
                    return Ok(Some(next));
                }
            }
        }
        Ok(None)
    }

    /// The course of the replies, which is planned where none is set.
    fn course<R: Rule>(
        &mut self,
        table: &Table,
        replies: &[Reply],
        rest: Rest,
        meeting: &mut Meeting,
        position: &mut Position<R>,
    ) -> Result<Course, Stop>
        requires below { names_below (record { replies = replies.now; rest = rest }) (length table.now) ≡ true }
        requires rising { is_rising replies.now ≡ true }
        requires ready { IsReady R.KIND table.now position.old self.old }
        requires outlook { IsOutlook R.KIND table.now position.old meeting.old.outlook }
        ensures planned { Planned R.KIND table.now (record { replies = replies.now; rest = rest }) position.old
            (all_to_ask position.old replies.now meeting.old.course) self.old.left self.new result }
        ensures outlook { IsOutlook R.KIND table.now position.old meeting.new.outlook }
        ensures left { self.new.left ≤ self.old.left }
        ensures same { position.new ≡ position.old }
    {
        match meeting.course.take() {
            Some(course) => Ok(course),
            None => {
                meeting.outlook = outlook_of(table, rest, meeting.outlook.free, position);
                self.plan(table, replies, rest, meeting.outlook, position)
            }
        }
    }

    /// The course of all replies. Where the side to move has no five point, and the node of the rest is sure, each reply that is
    /// neither listed nor on the attack of that node is counted at once, if it goes on.
    fn plan<R: Rule>(
        &mut self,
        table: &Table,
        replies: &[Reply],
        rest: Rest,
        outlook: Outlook,
        position: &mut Position<R>,
    ) -> Result<Course, Stop>
        requires rising { is_rising replies.now ≡ true }
        requires ready { IsReady R.KIND table.now position.old self.old }
        requires outlook { IsOutlook R.KIND table.now position.old outlook }
        requires rest { IfSome outlook.sure (λ s. rest_node rest ≡ Some s.node) }
        ensures planned { Planned R.KIND table.now (record { replies = replies.now; rest = rest }) position.old
            (points_of position.old) self.old.left self.new result }
        ensures left { self.new.left ≤ self.old.left }
        ensures same { position.new ≡ position.old }
    {
        match outlook.sure {
            Some(sure) if outlook.free && position.board().empties() > 1 => {
                let others = others_going_on(position, replies, sure.attack);
                self.take(others as u64)?;
                Ok(apart_course(replies, sure.attack))
            }
            _ => Ok(whole_course(replies, position.board())),
        }
    }

    /// Asks the reply `q`, which is answered by this node, if any is: whether it has to be walked from. Where the node is sure to
    /// win, the one arrival there is counted. The position is the same afterwards.
    fn ask<R: Rule>(
        &mut self,
        table: &Table,
        outlook: Outlook,
        q: Point,
        answer: Option<u32>,
        position: &mut Position<R>,
    ) -> Result<Option<u32>, Stop>
        requires below { IfSome answer (λ j. j < length table.now) }
        requires ready { IsReady R.KIND table.now position.old self.old }
        requires outlook { IsOutlook R.KIND table.now position.old outlook }

        // The same by all answers that answer the reply so.
        ensures asked { (a : Answers) → answer_lem a q ≡ answer → Asked R.KIND table.now a position.old q self.old self.new result }
        ensures left { self.new.left ≤ self.old.left }
        ensures same { position.new ≡ position.old }
    {
        match outcome_of(outlook.quick, position, q) {
            Outcome::Refused => Ok(None),
            Outcome::Wins => Err(self.fault(q, Why::ReplyWins)),
            Outcome::Fouls(_) => Ok(None),
            Outcome::Draws => Err(self.fault(q, Why::ReplyDraws)),
            Outcome::GoesOn => match answer {
                None => Err(self.fault(q, Why::NoAnswer)),
                Some(next) => {
                    let sure = sure_of(outlook.sure, table, next, position);
                    if wins_for_sure(sure, next, q) {
                        self.take(1)?;
                        Ok(None)
                    } else {
                        Ok(Some(next))
                    }
                }
            },
        }
    }
}

/// The replies at a position before any is asked, where the side to move has no five point if `free` is set.
pub(crate) fn begun(free: bool) -> Meeting
    ensures outlook { result.outlook ≡ record { free = free; quick = false; sure = None } }
    ensures course { result.course ≡ None }
{
    Meeting {
        outlook: Outlook {
            free,
            quick: false,
            sure: None,
        },
        course: None,
        reply: Point { x: 0, y: 0 },
    }
}

/// The course over the replies that are listed, and over the one on `w` if it isn't.
fn apart_course(replies: &[Reply], w: Point) -> Course
    ensures course { to_ask replies.now result ≡ apart_points replies.now w }
{
    if is_listed(replies, w) {
        Course::Listed(0)
    } else {
        Course::ListedThen(0, w)
    }
}

/// The course over all replies: the listed ones are all of them where all empty points are listed.
fn whole_course(replies: &[Reply], board: &Board) -> Course
    requires rising { is_rising replies.now ≡ true }
    ensures course { IsWhole board.now replies.now (to_ask replies.now result) }
{
    if listed_empties(board, replies) == board.empties() as usize {
        Course::Listed(0)
    } else {
        Course::Each(board.points())
    }
}

/// The next reply that is to be asked, with the node that answers it if it is listed.
fn advance(course: &mut Course, replies: &[Reply]) -> Option<(Point, Option<u32>)>
    requires rising { is_rising replies.now ≡ true }
    ensures next { MatchOption result (to_ask replies.now course.old ≡ [])
        (λ r. to_ask replies.now course.old ≡ r.0 ∷ to_ask replies.now course.new) }
    ensures listed { IfSome result (λ r. IfSome r.1 (λ j. listed_node replies.now r.0 ≡ Some j)) }
{
    match course {
        Course::Each(points) => match points.next() {
            None => None,
            Some(q) => Some((q, None)),
        },
        Course::Listed(i) => {
            if *i < replies.len() {
                let reply = replies[*i];
                *i += 1;
                Some((reply.at, Some(reply.next)))
            } else {
                None
            }
        }
        Course::ListedThen(i, w) => {
            if *i < replies.len() {
                let reply = replies[*i];
                *i += 1;
                Some((reply.at, Some(reply.next)))
            } else {
                let last = *w;
                *course = Course::Listed(*i);
                Some((last, None))
            }
        }
    }
}

/// The node that answers the reply `q`, which is known where it is listed.
fn answer_of(replies: &[Reply], rest: Rest, q: Point, listed: Option<u32>) -> Option<u32>
    requires listed { IfSome listed (λ j. listed_node replies.now q ≡ Some j) }
    ensures answer { result ≡ answer_lem (record { replies = replies.now; rest = rest }) q }
{
    match listed {
        Some(next) => Some(next),
        None => answer_among(replies, rest, q),
    }
}
