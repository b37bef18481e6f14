//! Lists that are kept in one list.
//!
//! Many short lists stand one behind another, so that one of them is two numbers, and takes no memory of its own.
#![tactic(auto)]

ghost use Rattle.std.specs.Prelude.{◌≡◌, ◌≤◌, ◌+◌, length, IfSome, IfNone};
ghost use Rattle.proof_number.specs.Looks.{IsAdded, part_of};

/// So many elements are kept at most.
const MOST_KEPT: usize = 250_000;

/// Where a list stands among those that are kept.
#[derive(Clone, Copy)]
pub(crate) struct Span {
    pub(crate) first: u32,
    pub(crate) count: u32,
}

/// Adds a list behind those that are kept, if there is room and memory.
pub(crate) fn add_list<T: Copy>(all: &mut Vec<T>, list: &[T]) -> Option<Span>
    ensures added { IfSome result (IsAdded all.old.items list.now all.new.items) }
    ensures same { IfNone result (all.new.items ≡ all.old.items) }
{
    let first = all.len();
    if list.len() > MOST_KEPT || first > MOST_KEPT - list.len() {
        return None;
    }
    if all.extend_from_slice(list).is_err() {
        return None;
    }
    Some(Span {
        first: first as u32,
        count: list.len() as u32,
    })
}

/// The list that stands there.
pub(crate) fn list_at<T>(all: &[T], span: Span) -> &[T]
    requires within { span.first + span.count ≤ length all.now }
    ensures list { result.now ≡ part_of span all.now }
{
    let first = span.first as usize;
    &all[first..first + span.count as usize]
}
