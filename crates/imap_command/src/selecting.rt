//! SELECT and EXAMINE.

ghost use Rattle.std.specs.Prelude.{◌≡◌, ℕ, List, IfOk};
ghost use Rattle.imap_command.specs.Calls.{no_params, params, Adds, Finishes};
ghost use Rattle.imap_command.specs.Calls as call;

use crate::select::{NoParams, Params};
use crate::{Command, State};
use std::alloc::AllocError;
use std::marker::{Model, PhantomData};

/// A SELECT or EXAMINE that is being built; `T` is what it has been told so far. Where memory runs
/// out, the command is given up.
#[derive(Drop)]
pub struct SelectCommand<T> {
    args: Vec<u8>,
    state: PhantomData<T>,
}

impl<T> Model for SelectCommand<T> {
    ghost Value = { List ℕ };

    ghost view = { λ command. command.args.items };
}

impl<T> SelectCommand<T> {
    pub(crate) fn with_text(args: Vec<u8>) -> SelectCommand<T>
        ensures { result ≡ args.items }
    {
        SelectCommand {
            args,
            state: PhantomData,
        }
    }
}

// The finished command with this text.
fn selecting(args: Vec<u8>) -> Command
    ensures text { result.args.items ≡ args.items }
    ensures next_state { result.next_state ≡ Some State.Selected }
{
    Command {
        args,
        next_state: Some(State::Selected),
    }
}

impl SelectCommand<NoParams> {
    /// Asks for mod-sequences from now on (RFC 4551, section 3.7). It takes memory; `Err`: memory
    /// ran out.
    pub fn cond_store(self) -> Result<SelectCommand<Params>, AllocError>
        ensures { IfOk result (Adds no_params call.cond_store params self) }
    {
        let mut args = self.args;
        args.extend_from_slice(b" (CONDSTORE")?;
        Ok(SelectCommand::with_text(args))
    }
}

impl SelectCommand<Params> {
    /// The finished command. It takes memory; `Err`: memory ran out.
    #[tactic(auto, using(crate::proofs::NextStates::selects_with_params))]
    pub fn into_command(self) -> Result<Command, AllocError>
        ensures { IfOk result (Finishes params self) }
    {
        let mut args = self.args;
        args.push(b')')?;
        Ok(selecting(args))
    }
}

/// The finished command. It takes no memory.
impl From<SelectCommand<NoParams>> for Command {
    ghost from_gives = { Finishes no_params };

    fn from(select: SelectCommand<NoParams>) -> Command {
        selecting(select.args)
    }
}
