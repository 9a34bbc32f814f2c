//! Laws of the definitions, for proofs that use them. Each is the contract of a function that does nothing.

ghost use Rattle.interval.specs.Laws.{ResultsAreMembers, ResultsAreWords, EdgesKeepMembers};
ghost use Rattle.interval.specs.Laws.{EdgesAreWords, HullHoldsBoth, HullIsLeast, HullCommutes, HullAssociates};

/// A law, for the soundness of a transfer function. Take two ranges of words, and a member of each: the result of an operator on the two
/// members, on 64 bits (`wide`) or 32 (`narrow`), is a member of the range that the table of ranges (`range_of`) gives for the two ranges.
pub fn results_are_members()
    ensures wide { ResultsAreMembers 64 }
    ensures narrow { ResultsAreMembers 32 }
{}

/// A law, so that ranges in facts have only words of 64 bits as members: if all members of two ranges are below 2^64, so are all members of
/// the range that the table of ranges (`range_of`) gives for the results of an operator on operands in the two. `wide` says this of
/// operators on 64 bits, `narrow` of those on 32, whose operands may be any words of 64 bits too.
pub fn results_are_words()
    ensures wide { ResultsAreWords 64 }
    ensures narrow { ResultsAreWords 32 }
{}

/// A law, for the soundness of a transfer function: if a member of a range of words is compared with a member of another such range, on 64
/// bits (`wide`) or 32 (`narrow`), each of the two numbers is a member of its range as refined on the edge that the comparison takes.
pub fn edges_keep_members()
    ensures wide { EdgesKeepMembers 64 }
    ensures narrow { EdgesKeepMembers 32 }
{}

/// A law: if all members of two ranges are below 2^64, a comparison on 64 bits (`wide`) or 32 (`narrow`) refines both to ranges whose
/// members are below 2^64, on each of its edges. An edge that can't be taken has no ranges. So ranges in facts have only words of 64 bits
/// as members.
pub fn edges_are_words()
    ensures wide { EdgesAreWords 64 }
    ensures narrow { EdgesAreWords 32 }
{}

/// A law, for joins of facts: the hull of two ranges has all members of both (`holds_both`), and each range with all of these has all
/// members of the hull, so the hull is the least such range (`least`). It is commutative (`commutes`) and associative (`associates`).
pub fn hull_is_a_join()
    ensures holds_both { HullHoldsBoth }
    ensures least { HullIsLeast }
    ensures commutes { HullCommutes }
    ensures associates { HullAssociates }
{}
