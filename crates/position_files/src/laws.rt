//! The laws of reading back, each as the contract of a function that computes nothing.
//!
//! What a writer writes is the text of its value, and what a reader answers of a text, or of a section at the front of
//! bytes, is its value or a fault that is said of it. So these laws leave no other answer than that value, or that there
//! is no memory.
#![tactic(auto)]

ghost use Rattle.position_files.specs.ReadBack.{GamesReadBack, HeadsReadBack, NamesFirstBad, NodesNameFirstBad, NodesReadBack, PositionsReadBack, StartsNameFirstBad, StartsReadBack, TablesReadBack};
ghost use Rattle.position_files.specs.Sections.{IsBoardLines};

/// The text of a lawful position is read back as that position: it is the text of no other, and it is not refused.
pub fn positions_read_back()
    ensures same { PositionsReadBack }
{}

/// The text of a table at a lawful position, whose moves are the depth of its root, is read back as that table: it is the
/// text of no other, and it is not refused.
pub fn tables_read_back()
    ensures same { TablesReadBack }
{}

/// The text of a game from a lawful position is read back as that game: it is the text of no other, and it is not refused.
pub fn games_read_back()
    ensures same { GamesReadBack }
{}

/// A head, lines of nodes and the line of a start that bytes begin with are read as these values, whatever follows them:
/// the bytes begin with no other, and they are not refused.
pub fn sections_read_back()
    ensures heads { HeadsReadBack }
    ensures nodes { NodesReadBack }
    ensures starts { StartsReadBack }
{}

/// The bad line that a section is refused for is the first bad line of the texts that begin with such a section, as the
/// bad line of a whole text is that of the texts of its kind.
pub fn sections_name_first_bad_lines()
    ensures heads { NamesFirstBad IsBoardLines }
    ensures nodes { NodesNameFirstBad }
    ensures starts { StartsNameFirstBad }
{}
