// The refusals that the programs share.
ghost use Rattle.std.specs.Prelude.{◌≡◌, IfOk};
ghost use Rattle.program_steps.specs.Outcome.{too_long, file_refused, query_refused};
ghost use Rattle.program_steps.specs.code.Endings.{outcome};

use super::reply::Reply;
use outside::Status;
use std::alloc::{AllocError, Global};

/// The file has more bytes than its limit.
pub fn too_long(alloc: Global, name: &str) -> Result<Reply, AllocError>
    ensures { IfOk result (λ reply. outcome reply ≡ too_long name.now) }
{
    Ok(Reply {
        status: Status::TooLong,
        text: format!(in alloc; "too long {name}\n")?,
    })
}

/// The line of the file with this number, from 1, is not of the file's form.
pub fn file_refused(alloc: Global, name: &str, number: u64) -> Result<Reply, AllocError>
    ensures { IfOk result (λ reply. outcome reply ≡ file_refused name.now number) }
{
    Ok(Reply {
        status: Status::FileRefused,
        text: format!(in alloc; "file refused {name} {number}\n")?,
    })
}

/// The query breaks this rule.
pub fn query_refused(alloc: Global, rule: u8) -> Result<Reply, AllocError>
    ensures { IfOk result (λ reply. outcome reply ≡ query_refused rule) }
{
    Ok(Reply {
        status: Status::RequestRefused,
        text: format!(in alloc; "refused query {rule}\n")?,
    })
}
