//! Words of the command: its attack, and the names of its files.
#![tactic(auto)]

ghost use Rattle.std.specs.Prelude.{◌↔◌, Option, map, IsTrue, string_bytes};
ghost use Rattle.text_lines.specs.Reading.{Reads};
ghost use Rattle.game_rules.specs.declared.Point.{Point};
ghost use Rattle.cover_command.specs.PartFiles.{ArePartNames};
ghost use Rattle.cover_command.specs.Covers.{IsAttack, attack_word};

use file_loading::are_file_names;
use reply_cover::MAX_PARTS;
use stone_board::{MAX_SIDE, Point};
use text_lines::point;

/// The attack that the word names, or none where it is `-`, if it is one of these.
pub fn attack_of_word(word: &str) -> Option<Option<Point>>
    ensures attack { Reads IsAttack attack_word result word.now }
{
    if word == "-" {
        return Some(None);
    }
    let at = point(word.as_bytes(), MAX_SIDE, MAX_SIDE)?;
    Some(Some(at))
}

/// Whether these are 1 to `MAX_PARTS` names, none of which is empty.
pub fn are_part_names(names: &[String]) -> bool
    ensures names { IsTrue result ↔ ArePartNames (map string_bytes names.now) }
{
    are_file_names(names, MAX_PARTS)
}
