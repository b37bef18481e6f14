//! Whether a board is an image of another one.
//!
//! The boards are compared point by point under each symmetry in turn, up to the first point that differs.
#![tactic(auto)]

ghost use Rattle.std.specs.Prelude.{◌≡◌};
ghost use Rattle.std.specs.List.{list_any};
ghost use Rattle.reply_cover.specs.Covers.{is_image as is_image_lem, is_turned as is_turned_lem};

use board_symmetry::Symmetry;
use stone_board::Board;

/// The eight symmetries.
const SYMMETRIES: [Symmetry; 8] = [
    Symmetry::Identity,
    Symmetry::Half,
    Symmetry::FlipX,
    Symmetry::FlipY,
    Symmetry::Quarter,
    Symmetry::ThreeQuarter,
    Symmetry::Diagonal,
    Symmetry::AntiDiagonal,
];

/// Whether the other board is the image of the board under some symmetry that fits it.
#[tactic(auto, unfolding(crate::specs::Covers::is_turned))]
pub(crate) fn is_turned(board: &Board, other: &Board) -> bool
    ensures turned { result ≡ is_turned_lem board.now other.now }
{
    if other.width() != board.width() || other.height() != board.height() {
        return false;
    }
    is_turned_by(&SYMMETRIES, board, other)
}

/// Whether it is so under one of these symmetries. Both boards are of one size.
fn is_turned_by(symmetries: &[Symmetry], board: &Board, other: &Board) -> bool
    requires width { other.now.width ≡ board.now.width }
    requires height { other.now.height ≡ board.now.height }
    ensures turned { result ≡ list_any (λ s. is_image_lem s board.now other.now) symmetries.now }
{
    for s in symmetries {
        if is_image(*s, board, other) {
            return true;
        }
    }
    false
}

/// Whether it is so under this symmetry. Both boards are of one size.
#[tactic(auto, unfolding(crate::specs::Covers::is_image))]
fn is_image(s: Symmetry, board: &Board, other: &Board) -> bool
    requires width { other.now.width ≡ board.now.width }
    requires height { other.now.height ≡ board.now.height }
    ensures image { result ≡ is_image_lem s board.now other.now }
{
    let (width, height) = (board.width(), board.height());
    if !s.fits(width, height) {
        return false;
    }
    let back = s.inverse();
    for at in other.points() {
        if other.cell(at) != board.cell(back.point(width, height, at)) {
            return false;
        }
    }
    true
}
