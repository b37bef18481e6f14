//! Tables of many FILEs, one after another: each is loaded, read and checked, and then kept, and the next one is loaded.
//!
//! What is kept of a table is the command's own: `bind` adopts its nodes, `cover` keeps what a part needs, and `join` all of it. The
//! earliest FILE that is not accepted, or not kept, decides what is told.
#![tactic(auto)]

ghost use Rattle.std.specs.Prelude.{◌≡◌, ◌<◌, ◌++◌, ◌∷◌, [], ℕ, List, length, map, IfNone, IfOk, IfSome, OnErr, string_bytes};
ghost use Rattle.position_files.specs.declared.TableFile.{TableFile};
ghost use Rattle.renju_io.specs.Asked.{IsAskedAtMost};
ghost use Rattle.renju_io.specs.Faults.{HasNotFallen, HasStayed};
ghost use Rattle.command_base.specs.declared.status.Status.{Status};
ghost use Rattle.command_base.specs.Runs.{change};
ghost use Rattle.file_loading.specs.ManyFiles.{AreLoaded};
ghost use Rattle.file_loading.specs.TableFiles.{IsTableAt};

use crate::fitting::{Fitted, fit_file};
use command_base::Answer;
use position_files::TableFile;
use renju_io::Shelf;
use std::alloc::{AllocError, Global};

/// What is made of tables that are accepted, one after another.
pub trait Keeps {
    /// What holds of it once these tables are kept.
    ghost kept: { List TableFile → Self → Type 0 };

    /// There is room for a table after so many.
    ghost has_room: { ℕ → Type 0 };

    /// What is told in place of a table that is not kept after these.
    ghost tells: { List TableFile → TableFile → Status → List ℕ → Type 0 };

    /// Keeps a table that was read, or answers what is told in place of it.
    fn keep(&mut self, file: TableFile) -> Result<Option<Answer>, AllocError>
        requires read { (bytes : List ℕ) × IsTableAt file bytes }
        requires room { (files : List TableFile) × kept files self.old × has_room (length files) }
        ensures keeps { IfOk result (λ told. IfNone told ((files : List TableFile) → kept files self.old
            → kept (files ++ file ∷ []) self.new)) }
        ensures tells { IfOk result (λ told. IfSome told (λ answer. (files : List TableFile) → kept files self.old
            → tells files file answer.status answer.text)) };
}

/// Loads the files under these names, of which each may have so many arrivals, and keeps their tables in order. It answers what is told
/// in place of the earliest that is not accepted, or not kept, if there is one.
pub fn load_files<K: Keeps, F: Shelf>(
    alloc: Global,
    names: &[String],
    work: u64,
    keeps: &mut K,
    shelf: &mut F,
) -> Result<Option<Answer>, AllocError>
    requires none { K.kept [] keeps.old }
    requires room { (k : ℕ) → k < length names.now → K.has_room k }
    ensures loaded { IfOk result (AreLoaded (λ files. K.kept files keeps.new) K.tells work (map string_bytes names.now)
        (change F.files F.faults F.asked shelf.old shelf.new)) }
    ensures shelf { HasNotFallen (F.faults shelf.old) (F.faults shelf.new) }
    ensures files { F.files shelf.new ≡ F.files shelf.old }
    ensures memory { OnErr result (HasStayed (F.faults shelf.old) (F.faults shelf.new)) }
    ensures each { IsAskedAtMost (length (map string_bytes names.now)) (F.asked shelf.old) (F.asked shelf.new) }
{
    for (before, name) in names.iter().enumerate() {
        match fit_file(alloc, before + 1, name.as_str(), work, shelf)? {
            Fitted::Fits(file) => match keeps.keep(file)? {
                None => {}
                Some(told) => return Ok(Some(told)),
            },
            Fitted::Tells(told) => return Ok(Some(told)),
        }
    }
    Ok(None)
}

/// All of each table is kept, in order.
impl Keeps for Vec<TableFile> {
    ghost use Rattle.std.specs.Prelude.{◌≡◌};

    ghost kept = { λ files tables. tables.items ≡ files };

    ghost has_room = { λ _. Unit {0} };

    ghost tells = { λ _ _ _ _. ⊥ };

    fn keep(&mut self, file: TableFile) -> Result<Option<Answer>, AllocError> {
        self.push(file)?;
        Ok(None)
    }
}
