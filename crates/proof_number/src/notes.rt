//! What the search knows of the nodes of its tree beside their numbers, and of positions that were settled.
//!
//! The tree has numbers and kinds alone. The move that leads to a node, the moves that are left there and the win that was
//! compiled for it stand in a list of notes beside it, one for each node, so that a node stays small.
#![tactic(auto)]

ghost use Rattle.std.specs.Prelude.{◌≡◌, ◌<◌, ◌^◌};
ghost use Rattle.proof_number.specs.Notes.{noted_win};

use stone_board::Point;
use strategy_compiler::WrittenWin;

/// What is known of a node: the move that leads to it, how many moves the attacker has left there, and the win that was
/// compiled for it, if it is a proved node of the attacker. Where none was compiled, `moves` is 0.
#[derive(Clone, Copy)]
pub(crate) struct Note {
    pub(crate) at: Point,
    pub(crate) left: u8,
    pub(crate) moves: u8,
    pub(crate) node: u32,
}

impl Note {
    /// The note of a node for which no win is compiled.
    pub(crate) fn open(at: Point, left: u8) -> Note
        ensures note { result ≡ record { at = at; left = left; moves = 0; node = 0 } }
    {
        Note {
            at,
            left,
            moves: 0,
            node: 0,
        }
    }

    /// The note of a node that is won.
    pub(crate) fn won(self, win: WrittenWin) -> Note
        requires few { win.moves < 2 ^ 8 }
        ensures note { result ≡ record self { moves = win.moves; node = win.node } }
    {
        Note {
            moves: win.moves as u8,
            node: win.node,
            ..self
        }
    }

    /// The win of the node, if one was compiled.
    pub(crate) fn win(self) -> Option<WrittenWin>
        ensures win { result ≡ noted_win self }
    {
        if self.moves == 0 {
            return None;
        }
        Some(WrittenWin {
            node: self.node,
            moves: u32::from(self.moves),
        })
    }
}

/// What is remembered of a position of the attacker within some moves: its win, that there is none, or the node that was last given
/// children there.
#[derive(Clone, Copy)]
pub(crate) enum Settled {
    Won(WrittenWin),
    Lost,
    Open(u32),
}
