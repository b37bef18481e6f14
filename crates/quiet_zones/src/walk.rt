//! The walk that makes the zone of a node at a board, the attacker to move.
//!
//! The zone of the rest is made first, as after a pass. Then each reply that is listed, and each that harms it, is played and met: of
//! all of these the zone of the node says what they say. The nodes on the way stand in a list of frames, so the walk takes the same
//! stack however deep a table is, and it ends after so many pairs of a node and a board. All that it does on the board it tests
//! first, so it holds of any list of nodes.
#![tactic(auto)]

use crate::frames::Frame;
use crate::zones::Zones;
use foul_judge::foul_at;
use row_shapes::{Rule, is_five_point};
use std::alloc::AllocError;
use stone_board::{Axis, Board, Point, Side};
use strategy_graph::{Node, Replies, Rest};

/// So many pairs of a node and a board are looked at for one question.
const MOST_PAIRS: u32 = 20_000;

/// What came of a node at the board.
#[derive(Clone, Copy)]
enum Entered {
    /// It has this zone, or none.
    Told(Option<u32>),
    /// Its attack stands on the board, and it has a frame: this node is asked next, as after a pass.
    Opened(u32),
}

/// How the walk goes on.
#[derive(Clone, Copy)]
enum Next {
    /// This node is asked at the board.
    Ask(u32),
    /// The first node has this zone, or none.
    Answer(Option<u32>),
}

impl<R: Rule> Zones<R> {
    /// The number of the zone of node `i` at the board. `None` says that it has none, or that it takes too many pairs.
    pub fn zone_of(
        &mut self,
        nodes: &[Node],
        i: u32,
        board: &Board,
    ) -> Result<Option<u32>, AllocError> {
        if !self.begins(nodes, i, board) {
            return Ok(None);
        }
        if let Some(told) = self.find(board, i) {
            return Ok(told);
        }
        self.forget_if_full()?;
        let mut own = board.copy()?;
        self.walk(nodes, i, &mut own)
    }

    /// Walks until the first node's zone is told, or too many pairs were looked at.
    fn walk(
        &mut self,
        nodes: &[Node],
        first: u32,
        board: &mut Board,
    ) -> Result<Option<u32>, AllocError> {
        let mut frames = Vec::new(self.alloc);
        let mut asked = first;
        for _ in 0..MOST_PAIRS {
            match self.enter_node(nodes, asked, board, &mut frames)? {
                Entered::Opened(rest) => asked = rest,
                Entered::Told(told) => match self.hand_up(nodes, board, &mut frames, told)? {
                    Next::Ask(node) => asked = node,
                    Next::Answer(zone) => return Ok(zone),
                },
            }
        }
        Ok(None)
    }

    /// Whether the node can have a zone at all at the board: its attack is to an empty point, and wins at once or has an answer.
    fn begins(&self, nodes: &[Node], i: u32, board: &Board) -> bool {
        let place = i as usize;
        if place >= nodes.len() {
            return false;
        }
        let node = &nodes[place];
        board.is_empty(node.attack)
            && (!node.rest.is_winning() || is_five_point::<R>(board, self.side, node.attack))
    }

    /// Tells the zone of a node that needs no walk, or gives it a frame.
    fn enter_node(
        &mut self,
        nodes: &[Node],
        i: u32,
        board: &mut Board,
        frames: &mut Vec<Frame>,
    ) -> Result<Entered, AllocError> {
        let place = i as usize;
        if place >= nodes.len() || !self.begins(nodes, i, board) {
            return Ok(Entered::Told(None));
        }
        if let Some(told) = self.find(board, i) {
            return Ok(Entered::Told(told));
        }
        let node = &nodes[place];
        if fouls::<R>(board, self.side, node.attack) {
            return Ok(Entered::Told(None));
        }
        if is_five_point::<R>(board, self.side, node.attack) {
            let zone = self.push_blank()?;
            self.enter(board, zone, node.attack);
            self.keep(board, i, Some(zone))?;
            return Ok(Entered::Told(Some(zone)));
        }
        match node.rest {
            Rest::To(rest) => self.open(i, node.attack, rest, board, frames),
            Rest::Wins | Rest::Nothing => Ok(Entered::Told(None)),
        }
    }

    /// Plays the attack of a node and gives it a frame, unless the other side has a window with four stones then.
    fn open(
        &mut self,
        node: u32,
        attack: Point,
        rest: u32,
        board: &mut Board,
        frames: &mut Vec<Frame>,
    ) -> Result<Entered, AllocError> {
        board.put_if_empty(attack, self.side);
        match self.push_opened(board)? {
            None => {
                lift_if_held(board, attack);
                self.keep(board, node, None)?;
                Ok(Entered::Told(None))
            }
            Some(zone) => {
                frames.push(Frame {
                    node,
                    rest,
                    zone,
                    passed: None,
                    place: 0,
                    reply: None,
                })?;
                Ok(Entered::Opened(rest))
            }
        }
    }

    /// Hands a zone, or that there is none, to the frame above, and so on while that makes the frame's own known.
    fn hand_up(
        &mut self,
        nodes: &[Node],
        board: &mut Board,
        frames: &mut Vec<Frame>,
        told: Option<u32>,
    ) -> Result<Next, AllocError> {
        let mut told = told;
        while let Some(frame) = frames.pop() {
            if let Some(q) = frame.reply {
                lift_if_held(board, q);
            }
            match told {
                None => self.leave(nodes, frame, None, board)?,
                Some(zone) => {
                    let taken = self.take(frame, zone);
                    match self.next_reply(nodes, taken, board) {
                        Some((asked, at, place)) => {
                            board.put_if_empty(at, self.side.other());
                            frames.push(Frame {
                                place,
                                reply: Some(at),
                                ..taken
                            })?;
                            return Ok(Next::Ask(asked));
                        }
                        None => {
                            self.leave(nodes, taken, Some(taken.zone), board)?;
                            told = Some(taken.zone);
                        }
                    }
                }
            }
        }
        Ok(Next::Answer(told))
    }

    /// The frame once what was asked behind it has this zone: it is that of the rest after a pass, or of the reply that was played.
    fn take(&mut self, frame: Frame, zone: u32) -> Frame {
        match frame.passed {
            None => {
                self.cover(frame.zone, zone, true);
                Frame {
                    passed: Some(zone),
                    place: 0,
                    ..frame
                }
            }
            Some(_) => {
                self.cover(frame.zone, zone, false);
                frame
            }
        }
    }

    /// The next reply that has to be met: the node that is asked after it, where it is played, and where the next is looked for.
    fn next_reply(
        &mut self,
        nodes: &[Node],
        frame: Frame,
        board: &mut Board,
    ) -> Option<(u32, Point, usize)> {
        let own = frame.node as usize;
        if own >= nodes.len() {
            return None;
        }
        let width = board.width();
        for place in frame.place..self.size {
            let q = point_of(width, place);
            if let Some(asked) = self.asked_after(&nodes[own].replies, frame, board, q) {
                return Some((asked, q, place + 1));
            }
        }
        None
    }

    /// The node that is asked after a reply: the one that is listed for it, or that of the rest where the reply harms the zone which
    /// follows a pass. None is asked after a reply that can't be played or fouls; a stone near a foul may unmake it, so it harms.
    fn asked_after(
        &mut self,
        replies: &Replies,
        frame: Frame,
        board: &mut Board,
        q: Point,
    ) -> Option<u32> {
        if !board.is_empty(q) {
            return None;
        }
        let passed = frame.passed?;
        let asked = match replies.find(q) {
            Some(listed) => listed,
            None if self.is_harmed(board, passed, q) => frame.rest,
            None => return None,
        };
        if fouls::<R>(board, self.side.other(), q) {
            self.enter_around(board, frame.zone, q);
            None
        } else {
            Some(asked)
        }
    }

    /// Makes the points within five steps of a point, on its four lines, points of the zone.
    fn enter_around(&mut self, board: &Board, zone: u32, q: Point) {
        self.enter_line(board, zone, Axis::Row, q);
        self.enter_line(board, zone, Axis::Column, q);
        self.enter_line(board, zone, Axis::Down, q);
        self.enter_line(board, zone, Axis::Up, q);
    }

    /// The same on one line.
    fn enter_line(&mut self, board: &Board, zone: u32, axis: Axis, q: Point) {
        for k in 0..11u8 {
            if board.on(q) {
                if let Some(p) = board.along(q, axis, k, 5) {
                    self.enter(board, zone, p);
                }
            }
        }
    }

    /// Takes the attack of a frame's node off the board, and keeps what became of its zone.
    fn leave(
        &mut self,
        nodes: &[Node],
        frame: Frame,
        zone: Option<u32>,
        board: &mut Board,
    ) -> Result<(), AllocError> {
        let own = frame.node as usize;
        if own < nodes.len() {
            let attack = nodes[own].attack;
            lift_if_held(board, attack);
            if let Some(made) = zone {
                self.enter(board, made, attack);
                self.fill_windows(board, made);
            }
        }
        self.keep(board, frame.node, zone)
    }
}

/// Whether the side's stone on the point fouls.
fn fouls<R: Rule>(board: &mut Board, side: Side, p: Point) -> bool {
    R::has_fouls(side) && board.is_empty(p) && foul_at::<R>(board, p).is_some()
}

/// The point at a place in reading order, on a board of this width.
fn point_of(width: u8, place: usize) -> Point {
    if width == 0 {
        return Point { x: 0, y: 0 };
    }
    let across = place % width as usize;
    let down = place / width as usize;
    Point {
        x: u8::try_from(across).unwrap_or(u8::MAX),
        y: u8::try_from(down).unwrap_or(u8::MAX),
    }
}

/// Takes the stone off the point, if it holds one.
fn lift_if_held(board: &mut Board, p: Point) {
    if board.on(p) && !board.is_empty(p) {
        board.lift(p);
    }
}
