//! What a cover keeps of the tables of files: a part of each, and the table is let go before the next is loaded.
#![tactic(auto)]

ghost use Rattle.std.specs.Prelude.{◌≡◌, []};

use command_base::Answer;
use file_loading::Keeps;
use position_files::TableFile;
use reply_cover::Part;
use std::alloc::{AllocError, Global};
use strategy_graph::Root;

/// The parts of the tables whose side to move claims the win.
#[derive(Drop)]
pub(crate) struct Parts {
    pub(crate) items: Vec<Part>,
}

impl Parts {
    /// No parts.
    pub(crate) fn new(alloc: Global) -> Self
        ensures empty { result.items.items ≡ [] }
    {
        Parts {
            items: Vec::new(alloc),
        }
    }
}

impl Keeps for Parts {
    ghost use Rattle.std.specs.Prelude.{◌≡◌};
    ghost use Rattle.cover_command.specs.PartFiles.{parts_of};

    ghost kept = { λ files parts. parts.items.items ≡ parts_of files };

    ghost has_room = { λ _. Unit {0} };

    ghost tells = { λ _ _ _ _. ⊥ };

    fn keep(&mut self, file: TableFile) -> Result<Option<Answer>, AllocError> {
        let TableFile {
            kind,
            board,
            table: _,
            root,
            moves,
        } = file;
        match root {
            Root::Attack(_) => {
                self.items.push(Part { kind, board, moves })?;
                Ok(None)
            }
            Root::Defend(_) => Ok(None),
        }
    }
}
