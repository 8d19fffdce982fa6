//! Laws of the numbers of positions, apart from how they are computed (RFC 9293, 3.4). These functions do nothing when
//! they run: each carries the law that it ensures.
ghost use Rattle.tcp_numbers.specs.Laws.{NearIsNearest, OffsetIsModular};

/// The position that a number is read as near an expected one has this number, is nearest to the expected one, and is
/// the only one that is (RFC 9293, 3.4).
pub fn near_is_nearest()
    ensures { NearIsNearest }
{}

/// How far a number is from a position, `near n w - n`, depends on the position modulo 2^32 alone: an end can compute
/// it from the 32 bits that it keeps (RFC 9293, 3.4).
pub fn offset_is_modular()
    ensures { OffsetIsModular }
{}
