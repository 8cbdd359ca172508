//! Commands, by their bytes.

ghost use Rattle.std.specs.Prelude.{◌≡◌, ◌++◌, codes, Some, IfOk};
ghost use Rattle.imap_command.specs.Arguments.{refusal, quoted, Judges};
ghost use Rattle.imap_command.specs.declared.command.State.TheVariants.{Selected};

use imap_proto::builders::command::{BuildError, Command, CommandBuilder};
use std::alloc::Global;

/// A command that selects the mailbox of this name (RFC 3501, section 6.3.1), whatever bytes the name has.
///
/// `CarriageReturn`, `LineFeed`, `Nul`: the first such byte of the name. It takes memory; `OutOfMemory`: memory ran
/// out.
pub fn selecting(alloc: Global, mailbox: &str) -> Result<Command, BuildError>
    ensures judged { Judges (refusal mailbox.now) result }
    ensures text { IfOk result (λ command.
        command.args.items ≡ codes "SELECT " ++ quoted mailbox.now) }
    ensures next_state { IfOk result (λ command. command.next_state ≡ Some Selected) }
{
    Ok(CommandBuilder::select(alloc, mailbox)?.into())
}
