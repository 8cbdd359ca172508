//! Statuses.

ghost use Rattle.std.specs.Prelude.{◌≡◌};
ghost use Rattle.imap_shared.specs.declared.types.statuses.Status.{Status as StatusSeen};
ghost use Rattle.imap_json.specs.Statuses.{status_name, status_json};

use crate::forms::ToJson;
use crate::output::Output;
use imap_shared::Status;
use std::alloc::AllocError;

fn name(status: &Status) -> &'static str
    ensures { result.now ≡ status_name status.now }
{
    match status {
        Status::Ok => "Ok",
        Status::No => "No",
        Status::Bad => "Bad",
        Status::PreAuth => "PreAuth",
        Status::Bye => "Bye",
    }
}

impl ToJson for Status {
    ghost meaning = { StatusSeen };

    ghost said = { λ s. s };

    ghost json = { status_json };

    fn write(&self, out: &mut Output) -> Result<(), AllocError> {
        out.string(name(self))
    }
}
