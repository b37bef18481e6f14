//! The command `image`: a table carried over to another side of the board.
//!
//! The text is read, and the text of its image under the symmetry is written. The table is not checked: its image is accepted
//! exactly where it is.
#![tactic(auto)]

ghost use Rattle.std.specs.Prelude.{◌≡◌, ◌≢◌, ℕ, List, false, IfOk, IsOk, MatchOption};
ghost use Rattle.game_rules.specs.Play.{IsPosition};
ghost use Rattle.strategy_graph.specs.Roots.{root_depth};
ghost use Rattle.position_files.specs.Tables.{IsTextOfTable};
ghost use Rattle.board_symmetry.specs.Points.{fits};
ghost use Rattle.board_symmetry.specs.declared.symmetry.Symmetry.{Symmetry};
ghost use Rattle.table_commands.specs.Images.{ImagedFileSays, ImageSays, symmetry_word, unfit_line};

use board_symmetry::{Symmetry, image_board, image_root, image_table};
use command_base::{Answer, Status, Told, refused_text};
use position_files::{TableFile, read_table, write_table};
use std::alloc::{AllocError, Global};

/// The symmetry that this word names, if it names one.
pub fn symmetry_of_word(word: &str) -> Option<Symmetry>
    ensures word { MatchOption result ((s : Symmetry) → word.now ≢ symmetry_word s) (λ s. word.now ≡ symmetry_word s) }
{
    match word {
        "identity" => Some(Symmetry::Identity),
        "half" => Some(Symmetry::Half),
        "flip-x" => Some(Symmetry::FlipX),
        "flip-y" => Some(Symmetry::FlipY),
        "quarter" => Some(Symmetry::Quarter),
        "three-quarter" => Some(Symmetry::ThreeQuarter),
        "diagonal" => Some(Symmetry::Diagonal),
        "antidiagonal" => Some(Symmetry::AntiDiagonal),
        _ => None,
    }
}

/// `image SYMMETRY`.
#[derive(Clone, Copy)]
pub struct Image {
    /// What the table is carried over by.
    pub symmetry: Symmetry,
}

impl Told for Image {
    ghost use Rattle.table_commands.specs.Images.{ImageSays};

    ghost in_range = { λ c. Unit {0} };

    ghost says = { λ c. ImageSays c.symmetry };

    fn say(&self, alloc: Global, bytes: &[u8]) -> Result<Answer, AllocError> {
        match read_table(alloc, bytes) {
            Ok(file) => image_of(alloc, self.symmetry, &file),
            Err(error) => refused_text(alloc, error),
        }
    }
}

/// What is said of a text that was read.
fn image_of(alloc: Global, s: Symmetry, file: &TableFile) -> Result<Answer, AllocError>
    requires text { (bytes : List ℕ) × IsTextOfTable file.now bytes }
    requires lawful { IsPosition file.now.kind file.now.board }
    requires moves { file.now.moves ≡ root_depth file.now.table file.now.root }
    ensures says { IfOk result (λ answer. ImagedFileSays s file.now answer.status answer.text) }
    ensures no_memory { fits s file.now.board.width file.now.board.height ≡ false → IsOk result }
{
    let (width, height) = (file.board.width(), file.board.height());
    if !s.fits(width, height) {
        return Ok(unfit());
    }
    let image = image_board(alloc, s, &file.board)?;
    let nodes = image_table(alloc, s, width, height, &file.table)?;
    let root = image_root(alloc, s, width, height, &file.root)?;
    let bytes = write_table(alloc, file.kind, &image, &nodes, &root, file.moves)?;
    Ok(Answer::written(Status::Done, bytes))
}

/// The answer where the symmetry does not fit the board.
fn unfit() -> Answer
    ensures status { result.status ≡ Status.RefusedText }
    ensures text { result.text ≡ unfit_line }
{
    Answer::fixed(Status::RefusedText, "refused symmetry\n")
}
