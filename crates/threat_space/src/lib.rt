//! Threat-space search: sequences of threats of one side, in which the other side gives all costs at once.
//!
//! Each threat is answered by stones of the other side on all its costs together, so the search has no replies to try, and
//! looks at lists of threats alone (Allis, van den Herik and Huntjens, "Go-Moku and Threat-Space Search"). Lists with fewer
//! threats come first, and those of one length in the order of their threats, so the first sequence that is found is the
//! first of all. Each gain has to be one that a later threat or the final point depends on. A sequence is a hint where to
//! look for a win, and not yet a win: the other side may answer with threats of its own.
#![tactic(auto)]

mod answer;
mod barren;
mod boards;
mod needs;
mod pairs;
mod walk;

pub use answer::{SpaceAnswer, threat_space};

/// The most threats of a sequence that is searched.
pub const MAX_LENGTH: u32 = 30;
