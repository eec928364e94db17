// Replies of one text, and of lines with a last one.
ghost use Rattle.std.specs.Prelude.{◌≡◌, ◌++◌, IfOk, IsTrue, string_bytes};
ghost use Rattle.program_steps.specs.Outcome.{ends_with};
ghost use Rattle.program_steps.specs.Own.{is_own};
ghost use Rattle.program_steps.specs.code.Endings.{outcome};

use crate::reply::Reply;
use outside::Status;
use std::alloc::{AllocError, Global};

/// This text alone.
pub fn reply_of(alloc: Global, status: Status, text: &str) -> Result<Reply, AllocError>
    requires { IsTrue (is_own status) }
    ensures { IfOk result (λ reply. outcome reply ≡ ends_with status text.now) }
{
    Ok(Reply {
        status,
        text: String::from_str(alloc, text)?,
    })
}

/// These lines, and then a last one.
pub fn reply_with_last(mut lines: String, status: Status, last: &str) -> Result<Reply, AllocError>
    requires { IsTrue (is_own status) }
    ensures { IfOk result (λ reply. outcome reply ≡ ends_with status (string_bytes lines ++ last.now)) }
{
    lines.push_str(last)?;
    Ok(Reply {
        status,
        text: lines,
    })
}
