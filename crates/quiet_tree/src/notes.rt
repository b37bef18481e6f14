//! What is known of a node of the tree beside its numbers.
#![tactic(auto)]

use crate::MOST_ANSWERS;
use crate::tree_growth::numbers_of;
use proof_tree::{Link, ProofTree};
use std::alloc::{AllocError, Global};
use stone_board::Point;
use strategy_graph::Reply;

/// The move that leads to a node, and what was found there. The answers to replies that need no node stand in a list that all nodes
/// share, `count` of them from `first` on.
#[derive(Clone, Copy)]
pub struct Note {
    pub at: Point,
    /// A node that won a like position.
    pub hint: Option<u32>,
    /// The node that answers the replies which do no harm, at a node of the defender with children.
    pub rest: Option<u32>,
    pub first: u32,
    pub count: u32,
    /// The node of the compiler that wins, once the node is proved.
    pub win: Option<u32>,
}

impl Note {
    /// The note of a node that nothing is known of but the move that leads to it, and a hint.
    pub fn open(at: Point, hint: Option<u32>) -> Note {
        Note {
            at,
            hint,
            rest: None,
            first: 0,
            count: 0,
            win: None,
        }
    }

    /// The note with the rest of a node of the defender, and so many answers from a first one on.
    pub fn with_rest(self, rest: u32, first: usize, count: usize) -> Note {
        Note {
            rest: Some(rest),
            first: u32::try_from(first).unwrap_or(u32::MAX),
            count: u32::try_from(count).unwrap_or(0),
            ..self
        }
    }
}

/// What is kept of the nodes of the tree and of those of the compiler.
#[derive(Drop)]
pub struct Notes {
    alloc: Global,
    notes: Vec<Note>,
    /// The answers to replies that got no node, of all nodes of the tree.
    answers: Vec<Reply>,
    /// Which nodes of the compiler play a quiet move.
    quiet: Vec<bool>,
}

impl Notes {
    /// The note of one leaf.
    pub fn new(alloc: Global) -> Result<Notes, AllocError> {
        let mut notes = Vec::new(alloc);
        notes.push(Note::open(Point { x: 0, y: 0 }, None))?;
        Ok(Notes {
            alloc,
            notes,
            answers: Vec::new(alloc),
            quiet: Vec::new(alloc),
        })
    }

    /// The notes of a tree are those of one leaf again.
    pub fn begin(&mut self) -> Result<(), AllocError> {
        self.notes.truncate(0);
        self.notes.push(Note::open(Point { x: 0, y: 0 }, None))?;
        self.answers.truncate(0);
        Ok(())
    }

    /// Adds the notes of children.
    pub fn add(&mut self, children: &[Note]) -> Result<(), AllocError> {
        self.notes.extend_from_slice(children)?;
        Ok(())
    }

    /// The note of node `i` of the tree.
    pub fn note(&self, i: u32) -> Note {
        let place = i as usize;
        if place < self.notes.len() {
            self.notes[place]
        } else {
            Note::open(Point { x: 0, y: 0 }, None)
        }
    }

    /// Writes the note of node `i` of the tree.
    pub fn write(&mut self, i: u32, note: Note) {
        let place = i as usize;
        if place < self.notes.len() {
            self.notes[place] = note;
        }
    }

    /// Notes the node that wins at node `i` of the tree.
    pub fn write_win(&mut self, i: u32, node: u32) {
        let note = self.note(i);
        self.write(
            i,
            Note {
                win: Some(node),
                ..note
            },
        );
    }

    /// Whether a node of the compiler is known to play a quiet move.
    pub fn is_quiet(&self, node: u32) -> bool {
        let place = node as usize;
        place < self.quiet.len() && self.quiet[place]
    }

    /// Marks a node of the compiler as one that plays a quiet move.
    pub fn mark_quiet(&mut self, node: u32) -> Result<(), AllocError> {
        let place = node as usize;
        if place >= self.quiet.len() {
            self.quiet.resize(place.saturating_add(1), false)?;
        }
        if place < self.quiet.len() {
            self.quiet[place] = true;
        }
        Ok(())
    }

    /// Whether so many answers more are to be kept.
    pub fn has_room(&self, more: usize) -> bool {
        self.answers.len().saturating_add(more) <= MOST_ANSWERS
    }

    /// Notes the rest at a node of the defender, and the answers to the replies that get no node.
    pub fn write_rest(
        &mut self,
        leaf: u32,
        rest: u32,
        answers: &[Reply],
    ) -> Result<(), AllocError> {
        let note = self
            .note(leaf)
            .with_rest(rest, self.answers.len(), answers.len());
        self.answers.extend_from_slice(answers)?;
        self.write(leaf, note);
        Ok(())
    }

    /// The win of the first proved child.
    pub fn win_of_child(&self, tree: &ProofTree, link: Link) -> Option<u32> {
        for k in link.first..link.first.saturating_add(link.count) {
            if numbers_of(tree, k).proof == 0 {
                return self.note(k).win;
            }
        }
        None
    }

    /// The answers that were found at once, and the wins of the children.
    pub fn all_answers(&self, note: Note, link: Link) -> Result<Vec<Reply>, AllocError> {
        let mut answers = Vec::new(self.alloc);
        for k in note.first..note.first.saturating_add(note.count) {
            let place = k as usize;
            if place < self.answers.len() {
                answers.push(self.answers[place])?;
            }
        }
        for k in link.first..link.first.saturating_add(link.count) {
            let child = self.note(k);
            if let Some(next) = child.win {
                answers.push(Reply { at: child.at, next })?;
            }
        }
        Ok(answers)
    }
}
