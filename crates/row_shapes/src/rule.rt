//! The three rules of play.
//!
//! A rule decides which runs win and whether Black has fouls. Its laws are what the layers above may rely on whatever
//! the rule is: five in a row win for both sides, fewer never do, and where Black has fouls it wins with five alone.
#![tactic(auto)]

ghost use Rattle.std.specs.Prelude.{◌≡◌, ◌<◌, ℕ, Bool, true, false, refl};
ghost use Rattle.game_rules.specs.Shapes.{row_wins};
ghost use Rattle.game_rules.specs.Play.{has_fouls as has_fouls_lem};
ghost use Rattle.row_shapes.specs.Rule.{reach_of};
ghost use Rattle.game_rules.specs.declared.RuleKind.{RuleKind};
ghost use Rattle.game_rules.specs.declared.Side.{Side};

use crate::{ShapeTable, Shapes};
use game_rules::{RuleKind, Side};

/// A rule of play, as a type with no value.
pub trait Rule {
    ghost KIND: { RuleKind };

    /// Which of the three rules it is.
    const KIND: RuleKind;

    ghost BLACK_FOULS: { Bool };

    /// Whether Black has fouls: under renju alone.
    const BLACK_FOULS: bool;

    /// The shapes of Black's lines.
    type Black: Shapes;

    /// The shapes of White's lines.
    type White: Shapes;

    /// Whether a run of this length wins for the side.
    fn wins(side: Side, length: u32) -> bool
        ensures wins { result ≡ row_wins KIND side length };

    /// Whether the side has fouls: Black alone, and under renju alone.
    fn has_fouls(side: Side) -> bool
        ensures fouls { result ≡ has_fouls_lem KIND side }
    {
        match side {
            Side::Black => Self::BLACK_FOULS,
            Side::White => false,
        }
    }

    ghost fouls: { BLACK_FOULS ≡ has_fouls_lem KIND Side.Black };

    ghost five_wins: { (s : Side) → row_wins KIND s 5 ≡ true };

    ghost fewer_never: { (s : Side) (n : ℕ) → n < 5 → row_wins KIND s n ≡ false };

    ghost five_alone: { BLACK_FOULS ≡ true → (n : ℕ) → row_wins KIND Side.Black n ≡ true → n ≡ 5 };

    ghost black_reach: { Self.Black.REACH ≡ reach_of KIND Side.Black };

    ghost white_reach: { Self.White.REACH ≡ reach_of KIND Side.White };
}

/// Five or more in a row win for both sides, and nobody has fouls.
pub struct Freestyle;

impl Rule for Freestyle {
    ghost use Rattle.std.specs.Prelude.{false, refl};
    ghost use Rattle.row_shapes.specs.Rule.{five_wins as five_wins_lem, fewer_never as fewer_never_lem, five_alone as five_alone_lem};

    ghost KIND = { RuleKind.Freestyle };

    const KIND: RuleKind = RuleKind::Freestyle;

    type Black = ShapeTable<4>;

    type White = ShapeTable<4>;

    ghost BLACK_FOULS = { false };

    const BLACK_FOULS: bool = false;

    ghost fouls = { refl };

    ghost five_wins = { five_wins_lem RuleKind.Freestyle };

    ghost fewer_never = { fewer_never_lem RuleKind.Freestyle };

    ghost five_alone = { five_alone_lem RuleKind.Freestyle };

    ghost black_reach = { refl };

    ghost white_reach = { refl };

    fn wins(_side: Side, length: u32) -> bool {
        length >= 5
    }
}

/// Exactly five in a row win for both sides, and nobody has fouls.
pub struct ExactFive;

impl Rule for ExactFive {
    ghost use Rattle.std.specs.Prelude.{false, refl};
    ghost use Rattle.row_shapes.specs.Rule.{five_wins as five_wins_lem, fewer_never as fewer_never_lem, five_alone as five_alone_lem};

    ghost KIND = { RuleKind.Exact };

    const KIND: RuleKind = RuleKind::Exact;

    type Black = ShapeTable<5>;

    type White = ShapeTable<5>;

    ghost BLACK_FOULS = { false };

    const BLACK_FOULS: bool = false;

    ghost fouls = { refl };

    ghost five_wins = { five_wins_lem RuleKind.Exact };

    ghost fewer_never = { fewer_never_lem RuleKind.Exact };

    ghost five_alone = { five_alone_lem RuleKind.Exact };

    ghost black_reach = { refl };

    ghost white_reach = { refl };

    fn wins(_side: Side, length: u32) -> bool {
        length == 5
    }
}

/// Black wins with exactly five in a row and has fouls; White wins with five or more.
pub struct Renju;

impl Rule for Renju {
    ghost use Rattle.std.specs.Prelude.{true, refl};
    ghost use Rattle.row_shapes.specs.Rule.{five_wins as five_wins_lem, fewer_never as fewer_never_lem, five_alone as five_alone_lem};

    ghost KIND = { RuleKind.Renju };

    const KIND: RuleKind = RuleKind::Renju;

    type Black = ShapeTable<5>;

    type White = ShapeTable<4>;

    ghost BLACK_FOULS = { true };

    const BLACK_FOULS: bool = true;

    ghost fouls = { refl };

    ghost five_wins = { five_wins_lem RuleKind.Renju };

    ghost fewer_never = { fewer_never_lem RuleKind.Renju };

    ghost five_alone = { five_alone_lem RuleKind.Renju };

    ghost black_reach = { refl };

    ghost white_reach = { refl };

    fn wins(side: Side, length: u32) -> bool {
        match side {
            Side::Black => length == 5,
            Side::White => length >= 5,
        }
    }
}

/// Code under the rule that a text names: a rule is a type, but a text names one only when it runs.
/// `under_rule!(kind, work(a, b))` is the call `work::<R>(a, b)`, where `R` is the rule that `kind` names.
#[macro_export]
macro_rules! under_rule {
    ($kind:expr, $work:ident($($argument:expr),* $(,)?)) => {
        match $kind {
            $crate::RuleKind::Freestyle => $work::<$crate::Freestyle>($($argument),*),
            $crate::RuleKind::Exact => $work::<$crate::ExactFive>($($argument),*),
            $crate::RuleKind::Renju => $work::<$crate::Renju>($($argument),*),
        }
    };
}
