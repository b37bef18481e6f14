//! The eight symmetries, and where each takes a point.
//!
//! The four that exchange width and height carry a square board alone onto itself.
#![tactic(auto)]

ghost use Rattle.std.specs.Prelude.{◌≡◌, true};
ghost use Rattle.game_rules.specs.Grid.{is_on};
ghost use Rattle.board_symmetry.specs.Points.{exchanges as exchanges_lem, fits as fits_lem, inverse as inverse_lem, point_image, empty_board};

use game_rules::Point;

/// A symmetry of the board: turns by half a turn, a quarter and three quarters, flips that exchange left and right (`FlipX`) or
/// top and bottom (`FlipY`), and flips about the diagonal through the first point and about the other one.
#[derive(Clone, Copy, Debug, PartialEq, Eq)]
pub enum Symmetry {
    Identity,
    Half,
    FlipX,
    FlipY,
    Quarter,
    ThreeQuarter,
    Diagonal,
    AntiDiagonal,
}

impl Symmetry {
    /// Whether it exchanges width and height.
    fn exchanges(self) -> bool
        ensures exchanges { result ≡ exchanges_lem self }
    {
        match self {
            Symmetry::Identity | Symmetry::Half | Symmetry::FlipX | Symmetry::FlipY => false,
            Symmetry::Quarter
            | Symmetry::ThreeQuarter
            | Symmetry::Diagonal
            | Symmetry::AntiDiagonal => true,
        }
    }

    /// Whether it carries a board of this width and height onto itself: the four that exchange width and height want a
    /// square board.
    pub fn fits(self, width: u8, height: u8) -> bool
        ensures fits { result ≡ fits_lem self width height }
    {
        !self.exchanges() || width == height
    }

    /// The symmetry that undoes it.
    pub fn inverse(self) -> Symmetry
        ensures inverse { result ≡ inverse_lem self }
    {
        match self {
            Symmetry::Quarter => Symmetry::ThreeQuarter,
            Symmetry::ThreeQuarter => Symmetry::Quarter,
            Symmetry::Identity
            | Symmetry::Half
            | Symmetry::FlipX
            | Symmetry::FlipY
            | Symmetry::Diagonal
            | Symmetry::AntiDiagonal => self,
        }
    }

    /// Where it takes a point of a board of this width and height, which it fits.
    pub fn point(self, width: u8, height: u8, p: Point) -> Point
        requires fits { fits_lem self width height ≡ true }
        requires on { is_on (empty_board width height) p ≡ true }
        ensures image { result ≡ point_image self width height p }
    {
        let (x, y) = (p.x, p.y);
        match self {
            Symmetry::Identity => p,
            Symmetry::Half => Point {
                x: width - 1 - x,
                y: height - 1 - y,
            },
            Symmetry::FlipX => Point {
                x: width - 1 - x,
                y,
            },
            Symmetry::FlipY => Point {
                x,
                y: height - 1 - y,
            },
            Symmetry::Quarter => Point {
                x: height - 1 - y,
                y: x,
            },
            Symmetry::ThreeQuarter => Point {
                x: y,
                y: width - 1 - x,
            },
            Symmetry::Diagonal => Point { x: y, y: x },
            Symmetry::AntiDiagonal => Point {
                x: height - 1 - y,
                y: width - 1 - x,
            },
        }
    }
}
