//! Laws of requests that are in flight together, apart from the code. Each contract is a law; the function does nothing.
ghost use Rattle.in_flight.specs.Table.{StartsUpTo, TakesALine, TakesARequest, CollectsAnAnswer, EndsWithTheDisk, EndsWithTheReplies};
ghost use Rattle.in_flight.specs.Span.{ReadsStandInASpan};

/// If no requests overlap, a request reads what a single thread reads at its line, whichever writes of its span were installed
/// before.
pub fn reads_stand_in_a_span()
    ensures { ReadsStandInASpan }
{}

/// The lines of a script are taken in order, and the answers to its requests are collected in any order. If no requests overlap and
/// each answer is a single thread's, the disk is a single thread's once nothing is owed, and at the end so are the replies.
pub fn answers_come_in_any_order()
    ensures start { StartsUpTo }
    ensures line { TakesALine }
    ensures request { TakesARequest }
    ensures answer { CollectsAnAnswer }
    ensures end { EndsWithTheDisk }
    ensures replies { EndsWithTheReplies }
{}
