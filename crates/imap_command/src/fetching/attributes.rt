//! A FETCH that has been told attributes.

ghost use Rattle.std.specs.Prelude.{◌≡◌, ◌++◌, codes, IfOk};
ghost use Rattle.imap_command.specs.Calls.{attributes, modifiers, Adds, Finishes};
ghost use Rattle.imap_command.specs.Calls as call;

use super::FetchCommand;
use crate::fetch::{Attributes, Modifiers};
use crate::numbers::push_changed_since;
use crate::{Attribute, Command};
use std::alloc::AllocError;

impl FetchCommand<Attributes> {
    // Its text, with the end of the list.
    fn closed(self) -> Result<Vec<u8>, AllocError>
        ensures { IfOk result (λ args. args.items ≡ self ++ codes ")") }
    {
        let mut args = self.args;
        args.push(b')')?;
        Ok(args)
    }

    /// Asks for one more attribute (RFC 3501, section 6.4.5). It takes memory; `Err`: memory ran
    /// out.
    pub fn attr(self, attribute: Attribute) -> Result<FetchCommand<Attributes>, AllocError>
        ensures { IfOk result (Adds attributes (call.attr attribute) attributes self) }
    {
        let mut args = self.args;
        args.push(b' ')?;
        args.extend_from_slice(attribute.word())?;
        Ok(FetchCommand::with_text(args))
    }

    /// Asks only for messages that changed after this mod-sequence (RFC 4551, section 3.3.1). It
    /// takes memory; `Err`: memory ran out.
    pub fn changed_since(self, mod_seq: u64) -> Result<FetchCommand<Modifiers>, AllocError>
        ensures { IfOk result (Adds attributes (call.changed_since mod_seq) modifiers self) }
    {
        let mut args = self.closed()?;
        push_changed_since(&mut args, mod_seq)?;
        Ok(FetchCommand::with_text(args))
    }

    /// The finished command. It takes memory; `Err`: memory ran out.
    #[tactic(auto, using(crate::proofs::NextStates::fetches_attributes))]
    pub fn into_command(self) -> Result<Command, AllocError>
        ensures { IfOk result (Finishes attributes self) }
    {
        let args = self.closed()?;
        Ok(Command {
            args,
            next_state: None,
        })
    }
}
