//! Depths of nodes. Each node names only lower ones, so that the depth of a node follows from depths that are known
//! when it is added.
#![tactic(auto)]

ghost use Rattle.std.specs.Prelude.{◌≡◌, true, map, length, slice_index};
ghost use Rattle.strategy_graph.specs.Tables.{greatest, named, names_below};

use crate::{Reply, Rest};

/// The greatest depth of the nodes that the replies and the rest name, or 0 if they name none.
pub(crate) fn deepest(replies: &[Reply], rest: Rest, depths: &[u32]) -> u32
    requires below { names_below (record { replies = replies.now; rest = rest }) (length depths.now)
        ≡ true }
    ensures greatest { result
        ≡ greatest (map (λ j. slice_index depths.now j) (named (record { replies = replies.now; rest = rest }))) }
{
    let mut most = match rest.node() {
        None => 0,
        Some(number) => depths[number as usize],
    };
    for reply in replies {
        most = most.max(depths[reply.next as usize]);
    }
    most
}
