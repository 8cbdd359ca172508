//! Sets of UIDs.

ghost use Rattle.std.specs.Prelude.{◌≡◌};
ghost use Rattle.imap_shared.specs.declared.types.uid_sets.UidSetMember.TheVariants as member;

use std::ops::RangeInclusive;

/// A member of a set of UIDs (RFC 4315, section 3). Its clone takes no memory.
#[derive(Clone, Debug, Drop, PartialEq, Eq)]
pub enum UidSetMember {
    /// Two UIDs and all between them. In what a reader gives the first is at most the last, in whichever order they
    /// were written.
    UidRange(RangeInclusive<u32>),
    /// One UID.
    Uid(u32),
}

/// One UID. It takes no memory.
impl From<u32> for UidSetMember {
    ghost from_gives = { λ n m. m ≡ member.Uid n };

    fn from(uid: u32) -> UidSetMember {
        UidSetMember::Uid(uid)
    }
}

/// A range, its ends as they stand. It takes no memory.
impl From<RangeInclusive<u32>> for UidSetMember {
    ghost from_gives = { λ r m. m ≡ member.UidRange r };

    fn from(range: RangeInclusive<u32>) -> UidSetMember {
        UidSetMember::UidRange(range)
    }
}
