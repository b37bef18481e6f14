//! The forms of words: what each first word wants after it.
//!
//! A function here has the name of a first word, and tells the form of the words that begin with it.
#![tactic(auto)]

ghost use Rattle.std.specs.Prelude.{◌∷◌, codes, map, MatchOption, string_bytes};
ghost use Rattle.renju_cli.specs.Commands.{IsForm, HasForm};

use crate::Form;
use crate::numbers::{count, two_counts};
use brain_commands::MAX_DRILL;
use command_base::MAX_SEARCHED;
use cover_command::{are_part_names, attack_of_word};
use file_loading::MAX_WORK;
use four_search::MAX_DEPTH;
use stone_board::MAX_SIDE;
use table_commands::{are_names, symmetry_of_word};
use text_lines::{number, point};
use threat_space::MAX_LENGTH;

/// The form of `check` and the words after it, if they are WORK alone.
pub(crate) fn check(rest: &[String]) -> Option<Form>
    ensures form { MatchOption result (¬ HasForm (codes "check" ∷ map string_bytes rest.now)) (λ form. IsForm (codes "check" ∷ map string_bytes rest.now) form) }
{
    let [work] = rest else {
        return None;
    };
    let work = count(work, MAX_WORK)?;
    Some(Form::Check { work })
}

/// The form of `foul` and the words after it, if there are none.
pub(crate) fn foul(rest: &[String]) -> Option<Form>
    ensures form { MatchOption result (¬ HasForm (codes "foul" ∷ map string_bytes rest.now)) (λ form. IsForm (codes "foul" ∷ map string_bytes rest.now) form) }
{
    match rest {
        [] => Some(Form::Foul),
        _ => None,
    }
}

/// The form of `fours` and the words after it, if they are DEPTH and NODES.
pub(crate) fn fours(rest: &[String]) -> Option<Form>
    ensures form { MatchOption result (¬ HasForm (codes "fours" ∷ map string_bytes rest.now)) (λ form. IsForm (codes "fours" ∷ map string_bytes rest.now) form) }
{
    let (depth, nodes) = two_counts(rest, u64::from(MAX_DEPTH), MAX_SEARCHED)?;
    Some(Form::Fours {
        depth: depth as u32,
        nodes,
    })
}

/// The form of `threats` and the words after it, if they are LENGTH and NODES.
pub(crate) fn threats(rest: &[String]) -> Option<Form>
    ensures form { MatchOption result (¬ HasForm (codes "threats" ∷ map string_bytes rest.now)) (λ form. IsForm (codes "threats" ∷ map string_bytes rest.now) form) }
{
    let (length, nodes) = two_counts(rest, u64::from(MAX_LENGTH), MAX_SEARCHED)?;
    Some(Form::Threats {
        length: length as u32,
        nodes,
    })
}

/// The form of `solve` and the words after it, if they are DEPTH and NODES.
pub(crate) fn solve(rest: &[String]) -> Option<Form>
    ensures form { MatchOption result (¬ HasForm (codes "solve" ∷ map string_bytes rest.now)) (λ form. IsForm (codes "solve" ∷ map string_bytes rest.now) form) }
{
    let (depth, nodes) = two_counts(rest, u64::from(MAX_DEPTH), MAX_SEARCHED)?;
    Some(Form::Solve {
        depth: depth as u32,
        nodes,
    })
}

/// The form of `quiet` and the words after it, if they are DEPTH and NODES.
pub(crate) fn quiet(rest: &[String]) -> Option<Form>
    ensures form { MatchOption result (¬ HasForm (codes "quiet" ∷ map string_bytes rest.now))
        (λ form. IsForm (codes "quiet" ∷ map string_bytes rest.now) form) }
{
    let (depth, nodes) = two_counts(rest, u64::from(MAX_DEPTH), MAX_SEARCHED)?;
    Some(Form::Quiet {
        depth: depth as u32,
        nodes,
    })
}

/// The form of `brain` and the words after it, if they are none, or a FILE that is not empty.
pub(crate) fn brain(rest: &[String]) -> Option<Form>
    ensures form { MatchOption result (¬ HasForm (codes "brain" ∷ map string_bytes rest.now)) (λ form. IsForm (codes "brain" ∷ map string_bytes rest.now) form) }
{
    match rest {
        [] => Some(Form::Brain),
        [file] if !file.is_empty() => Some(Form::BrainWith),
        _ => None,
    }
}

/// The form of `drill` and the words after it, if they are one number up to `MAX_DRILL`.
pub(crate) fn drill(rest: &[String]) -> Option<Form>
    ensures form { MatchOption result (¬ HasForm (codes "drill" ∷ map string_bytes rest.now)) (λ form. IsForm (codes "drill" ∷ map string_bytes rest.now) form) }
{
    let [word] = rest else {
        return None;
    };
    Some(Form::Drill {
        number: number(word.as_bytes(), MAX_DRILL)?,
    })
}

/// The form of `image` and the words after it, if they are SYMMETRY alone.
pub(crate) fn image(rest: &[String]) -> Option<Form>
    ensures form { MatchOption result (¬ HasForm (codes "image" ∷ map string_bytes rest.now)) (λ form. IsForm (codes "image" ∷ map string_bytes rest.now) form) }
{
    let [word] = rest else {
        return None;
    };
    let symmetry = symmetry_of_word(word.as_str())?;
    Some(Form::Image { symmetry })
}

/// The form of `referee` and the words after it, if they are none, or a FILE that is not empty.
pub(crate) fn referee(rest: &[String]) -> Option<Form>
    ensures form { MatchOption result (¬ HasForm (codes "referee" ∷ map string_bytes rest.now)) (λ form. IsForm (codes "referee" ∷ map string_bytes rest.now) form) }
{
    match rest {
        [] => Some(Form::Referee),
        [file] if !file.is_empty() => Some(Form::RefereeWith),
        _ => None,
    }
}

/// The form of `defend` and the words after it, if they are DEPTH and NODES.
pub(crate) fn defend(rest: &[String]) -> Option<Form>
    ensures form { MatchOption result (¬ HasForm (codes "defend" ∷ map string_bytes rest.now))
        (λ form. IsForm (codes "defend" ∷ map string_bytes rest.now) form) }
{
    let (depth, nodes) = two_counts(rest, u64::from(MAX_DEPTH), MAX_SEARCHED)?;
    Some(Form::Defend {
        depth: depth as u32,
        nodes,
    })
}

/// The form of `bind` and the words after it, if they are 1 to `MAX_FILES` names, none of which is empty.
pub(crate) fn bind(rest: &[String]) -> Option<Form>
    ensures form { MatchOption result (¬ HasForm (codes "bind" ∷ map string_bytes rest.now)) (λ form. IsForm (codes "bind" ∷ map string_bytes rest.now) form) }
{
    if are_names(rest) {
        Some(Form::Bind)
    } else {
        None
    }
}

/// The form of `book` and the words after it, if they are WORK alone.
pub(crate) fn book(rest: &[String]) -> Option<Form>
    ensures form { MatchOption result (¬ HasForm (codes "book" ∷ map string_bytes rest.now)) (λ form. IsForm (codes "book" ∷ map string_bytes rest.now) form) }
{
    let [work] = rest else {
        return None;
    };
    let work = count(work, MAX_WORK)?;
    Some(Form::Book { work })
}

/// The form of `cover` and the words after it, if they are WORK, ATTACK and 1 to `MAX_PARTS` names, none of which is empty.
pub(crate) fn cover(rest: &[String]) -> Option<Form>
    ensures form { MatchOption result (¬ HasForm (codes "cover" ∷ map string_bytes rest.now))
        (λ form. IsForm (codes "cover" ∷ map string_bytes rest.now) form) }
{
    let [work, attack, names @ ..] = rest else {
        return None;
    };
    let work = count(work, MAX_WORK)?;
    let attack = attack_of_word(attack.as_str())?;
    if are_part_names(names) {
        Some(Form::Cover { work, attack })
    } else {
        None
    }
}

/// The form of `join` and the words after it, if they are a point and 1 to `MAX_PARTS` names, none of which is empty.
pub(crate) fn join(rest: &[String]) -> Option<Form>
    ensures form { MatchOption result (¬ HasForm (codes "join" ∷ map string_bytes rest.now))
        (λ form. IsForm (codes "join" ∷ map string_bytes rest.now) form) }
{
    let [attack, names @ ..] = rest else {
        return None;
    };
    let attack = point(attack.as_bytes(), MAX_SIDE, MAX_SIDE)?;
    if are_part_names(names) {
        Some(Form::Join { attack })
    } else {
        None
    }
}
