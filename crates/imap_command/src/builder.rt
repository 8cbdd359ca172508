//! The calls that begin a command.

ghost use Rattle.std.specs.Prelude.{◌≡◌, [], ◌∷◌, None, IfOk, OnOk};
ghost use Rattle.std.specs.Option.{option_or};
ghost use Rattle.imap_command.specs.Arguments.{refusal, Judges};
ghost use Rattle.imap_command.specs.Calls.{no_params, empty, Begins, Holds};
ghost use Rattle.imap_command.specs.Calls as call;
ghost use Rattle.imap_command.specs.OneLine.{Unrefused};
ghost use Rattle.imap_command.specs.OtherCalls.{begun};
ghost use Rattle.imap_command.specs.OtherWords.{name_refusal};

use crate::arguments::{with_argument, with_arguments};
use crate::fetch::Empty;
use crate::judging::judge_name;
use crate::other::Arguments;
use crate::select::NoParams;
use crate::{BuildError, Command, FetchCommand, OtherCommand, SelectCommand, State};
use std::alloc::{AllocError, Global};

/// Begins commands. Arguments are judged in their order, before any memory is taken.
#[derive(Drop)]
pub struct CommandBuilder {}

impl CommandBuilder {
    /// CHECK (RFC 3501, section 6.4.1). It takes memory; `Err`: memory ran out.
    pub fn check(alloc: Global) -> Result<Command, AllocError>
        ensures { IfOk result (Holds (call.check ∷ [])) }
    {
        let args = Vec::from_slice(alloc, b"CHECK")?;
        Ok(Command {
            args,
            next_state: None,
        })
    }

    /// CLOSE (RFC 3501, section 6.4.2). It takes memory; `Err`: memory ran out.
    pub fn close(alloc: Global) -> Result<Command, AllocError>
        ensures { IfOk result (Holds (call.close ∷ [])) }
    {
        let args = Vec::from_slice(alloc, b"CLOSE")?;
        Ok(Command {
            args,
            next_state: Some(State::Authenticated),
        })
    }

    /// EXAMINE of a mailbox (RFC 3501, section 6.3.2). The name is quoted, and not encoded: one
    /// beyond ASCII is to be in modified UTF-7 already (section 5.1.3).
    ///
    /// `CarriageReturn`, `LineFeed`, `Nul`: the first such byte of the argument. It takes memory;
    /// `OutOfMemory`: memory ran out.
    pub fn examine(alloc: Global, mailbox: &str) -> Result<SelectCommand<NoParams>, BuildError>
        ensures judged { Judges (refusal mailbox.now) result }
        ensures begins { IfOk result (Begins (call.examine mailbox.now) no_params) }
        ensures unrefused { OnOk result (Unrefused (call.examine mailbox.now)) }
    {
        let args = with_argument(alloc, b"EXAMINE ", mailbox)?;
        Ok(SelectCommand::with_text(args))
    }

    /// FETCH of messages by their numbers (RFC 3501, section 6.4.5). It takes memory; `Err`: memory
    /// ran out.
    pub fn fetch(alloc: Global) -> Result<FetchCommand<Empty>, AllocError>
        ensures { IfOk result (Begins call.fetch empty) }
    {
        let args = Vec::from_slice(alloc, b"FETCH ")?;
        Ok(FetchCommand::with_text(args))
    }

    /// LIST of the mailboxes that a pattern fits (RFC 3501, section 6.3.8). Both arguments are
    /// quoted, and not encoded: what is beyond ASCII is to be in modified UTF-7 already (section
    /// 5.1.3).
    ///
    /// `CarriageReturn`, `LineFeed`, `Nul`: the first such byte of the arguments. It takes memory;
    /// `OutOfMemory`: memory ran out.
    pub fn list(alloc: Global, reference: &str, glob: &str) -> Result<Command, BuildError>
        ensures judged { Judges (option_or (refusal reference.now) (refusal glob.now)) result }
        ensures told { IfOk result (Holds (call.list reference.now glob.now ∷ [])) }
        ensures unrefused { OnOk result (Unrefused (call.list reference.now glob.now)) }
    {
        let args = with_arguments(alloc, b"LIST ", reference, glob)?;
        Ok(Command {
            args,
            next_state: None,
        })
    }

    /// LOGIN (RFC 3501, section 6.2.3). The command has the password in clear.
    ///
    /// `CarriageReturn`, `LineFeed`, `Nul`: the first such byte of the arguments. It takes memory;
    /// `OutOfMemory`: memory ran out.
    pub fn login(alloc: Global, user_name: &str, password: &str) -> Result<Command, BuildError>
        ensures judged { Judges (option_or (refusal user_name.now) (refusal password.now)) result }
        ensures told { IfOk result (Holds (call.login user_name.now password.now ∷ [])) }
        ensures unrefused { OnOk result (Unrefused (call.login user_name.now password.now)) }
    {
        let args = with_arguments(alloc, b"LOGIN ", user_name, password)?;
        Ok(Command {
            args,
            next_state: Some(State::Authenticated),
        })
    }

    /// Any other command, by its name, as `NOOP`, `UID STORE` or `X-ALIVE` (RFC 3501, section 9: command).
    ///
    /// `BadName`: the name isn't made of words of letters, digits, `-` and `.` with a single space between two. It
    /// takes memory; `OutOfMemory`: memory ran out.
    pub fn other(alloc: Global, name: &str) -> Result<OtherCommand<Arguments>, BuildError>
        ensures judged { Judges (name_refusal name.now) result }
        ensures begins { IfOk result (λ text. text ≡ begun name.now []) }
        ensures unrefused { OnOk result (name_refusal name.now ≡ None) }
    {
        judge_name(name)?;
        let args = Vec::from_slice(alloc, name.as_bytes())?;
        Ok(OtherCommand::with_text(args))
    }

    /// SELECT of a mailbox (RFC 3501, section 6.3.1). The name is quoted, and not encoded: one
    /// beyond ASCII is to be in modified UTF-7 already (section 5.1.3).
    ///
    /// `CarriageReturn`, `LineFeed`, `Nul`: the first such byte of the argument. It takes memory;
    /// `OutOfMemory`: memory ran out.
    pub fn select(alloc: Global, mailbox: &str) -> Result<SelectCommand<NoParams>, BuildError>
        ensures judged { Judges (refusal mailbox.now) result }
        ensures begins { IfOk result (Begins (call.select mailbox.now) no_params) }
        ensures unrefused { OnOk result (Unrefused (call.select mailbox.now)) }
    {
        let args = with_argument(alloc, b"SELECT ", mailbox)?;
        Ok(SelectCommand::with_text(args))
    }

    /// FETCH of messages by their unique identifiers (RFC 3501, section 6.4.8). It takes memory;
    /// `Err`: memory ran out.
    pub fn uid_fetch(alloc: Global) -> Result<FetchCommand<Empty>, AllocError>
        ensures { IfOk result (Begins call.uid_fetch empty) }
    {
        let args = Vec::from_slice(alloc, b"UID FETCH ")?;
        Ok(FetchCommand::with_text(args))
    }
}
