//! Why a command isn't built.

ghost use Rattle.std.specs.Prelude.{◌≡◌};
ghost use Rattle.imap_c.specs.Commands.{refusal_number};

use imap_proto::builders::command::BuildError;
use std::alloc::AllocError;

/// Why a command isn't built.
#[derive(Drop)]
pub(crate) enum Refusal {
    /// An argument is not UTF-8.
    NotUtf8,
    /// No attribute is asked for, or a number is none of an attribute.
    NoAttribute,
    /// What the builder says.
    Build(BuildError),
}

impl From<BuildError> for Refusal {
    ghost use Rattle.imap_c.specs.declared.refusals.Refusal.TheVariants.{Build};

    ghost from_gives = { λ error refusal. refusal ≡ Build error };

    fn from(error: BuildError) -> Refusal {
        Refusal::Build(error)
    }
}

impl From<AllocError> for Refusal {
    ghost use Rattle.imap_command.specs.declared.errors.BuildError.TheVariants.{OutOfMemory};
    ghost use Rattle.imap_c.specs.declared.refusals.Refusal.TheVariants.{Build};

    ghost from_gives = { λ _ refusal. refusal ≡ Build OutOfMemory };

    fn from(_: AllocError) -> Refusal {
        Refusal::Build(BuildError::OutOfMemory)
    }
}

/// The number by which C is told of it.
pub(crate) fn number_of(refusal: &Refusal) -> u32
    ensures { result ≡ refusal_number refusal.now }
{
    match refusal {
        Refusal::Build(BuildError::OutOfMemory) => 3,
        Refusal::Build(BuildError::CarriageReturn) => 5,
        Refusal::Build(BuildError::LineFeed) => 6,
        Refusal::Build(BuildError::Nul) => 7,
        Refusal::Build(BuildError::BadName) => 8,
        Refusal::Build(BuildError::BadWord) => 9,
        Refusal::NotUtf8 => 10,
        Refusal::NoAttribute => 11,
        Refusal::Build(BuildError::BadSection) => 12,
    }
}
