//! Rights, and their letters.

ghost use Rattle.std.specs.Prelude.{◌≡◌};
ghost use Rattle.imap_shared.specs.Rights.{right_of, letter_of};

/// A right on a mailbox (RFC 4314, section 2.1).
#[derive(Clone, Copy, Debug, PartialEq, Eq, Hash)]
pub enum AclRight {
    /// `l`
    Lookup,
    /// `r`
    Read,
    /// `s`
    Seen,
    /// `w`
    Write,
    /// `i`
    Insert,
    /// `p`
    Post,
    /// `k`
    CreateMailbox,
    /// `x`
    DeleteMailbox,
    /// `t`
    DeleteMessage,
    /// `e`
    Expunge,
    /// `a`
    Administer,
    /// `n`, of RFC 5257
    Annotation,
    /// `c`, of RFC 2086
    OldCreate,
    /// `d`, of RFC 2086
    OldDelete,
    /// Any other character.
    Custom(char),
}

/// The right that a letter names; every character names one. No memory.
impl From<char> for AclRight {
    ghost from_gives = { λ c right. right ≡ right_of c };

    fn from(letter: char) -> AclRight {
        match letter {
            'l' => AclRight::Lookup,
            'r' => AclRight::Read,
            's' => AclRight::Seen,
            'w' => AclRight::Write,
            'i' => AclRight::Insert,
            'p' => AclRight::Post,
            'k' => AclRight::CreateMailbox,
            'x' => AclRight::DeleteMailbox,
            't' => AclRight::DeleteMessage,
            'e' => AclRight::Expunge,
            'a' => AclRight::Administer,
            'n' => AclRight::Annotation,
            'c' => AclRight::OldCreate,
            'd' => AclRight::OldDelete,
            other => AclRight::Custom(other),
        }
    }
}

/// The letter of a right. No memory.
impl From<AclRight> for char {
    ghost from_gives = { λ right c. c ≡ letter_of right };

    fn from(right: AclRight) -> char {
        match right {
            AclRight::Lookup => 'l',
            AclRight::Read => 'r',
            AclRight::Seen => 's',
            AclRight::Write => 'w',
            AclRight::Insert => 'i',
            AclRight::Post => 'p',
            AclRight::CreateMailbox => 'k',
            AclRight::DeleteMailbox => 'x',
            AclRight::DeleteMessage => 't',
            AclRight::Expunge => 'e',
            AclRight::Administer => 'a',
            AclRight::Annotation => 'n',
            AclRight::OldCreate => 'c',
            AclRight::OldDelete => 'd',
            AclRight::Custom(letter) => letter,
        }
    }
}
