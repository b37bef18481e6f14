//! Laws of the lines of an input that no call computes, as contracts of calls that do nothing.
//!
//! Each call of a reader says what it told of the bytes that it had kept and took. These laws join call to call: what was
//! told from the first call on are the lines of all bytes taken.
ghost use Rattle.renju_io.specs.Lines.{ToldAddsUp, ToldAreWhole, ToldToTheEnd};

/// What a reader tells call by call adds up: to the lines of the input where it comes to its end, and where a line stays
/// open to the lines that end within the bytes taken.
pub fn lines_add_up()
    ensures adds_up { ToldAddsUp }
    ensures whole { ToldAreWhole }
    ensures to_the_end { ToldToTheEnd }
{}
