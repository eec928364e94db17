// Why no options are printed.
ghost use Rattle.std.specs.Prelude.{◌≡◌, IfOk, string_bytes};
ghost use Rattle.program_steps.specs.code.Endings.{outcome, StopsBy};
ghost use Rattle.request_object.specs.Endings.{early};
ghost use Rattle.request_object.specs.Request.{Request};
ghost use Rattle.wallet_options.specs.Refusals.{error_code, has_table, not_an_option, request_refused, rule_text};

use outside::Status;
use program_steps::{Reply, Stop};
use request_object::{Error, RequestRule};
use runs::Fault;
use std::alloc::{AllocError, Global};

// The end of the command where the request is not read.
pub(crate) fn stop_by(alloc: Global, error: Error) -> Stop
    ensures { StopsBy {A = Request} request_refused (early error) result }
{
    match error {
        Error::Refused(rule) => match request_refused(alloc, rule) {
            Ok(reply) => Stop::Refused(reply),
            Err(_) => Stop::NoMemory,
        },
        Error::DeviceFault => Stop::Failed(Fault::Device),
        Error::NoMemory => Stop::NoMemory,
    }
}

// The request breaks this rule.
fn request_refused(alloc: Global, rule: RequestRule) -> Result<Reply, AllocError>
    ensures { IfOk result (λ reply. outcome reply ≡ request_refused rule) }
{
    let number = rule_text(alloc, rule)?;
    let code = error_code(rule.number);
    Ok(Reply {
        status: Status::RequestRefused,
        text: format!(in alloc; "refused request {number} {code}\n")?,
    })
}

fn rule_text(alloc: Global, rule: RequestRule) -> Result<String, AllocError>
    ensures { IfOk result (λ text. string_bytes text ≡ rule_text rule) }
{
    let RequestRule { number, inner } = rule;
    if has_table(number) {
        format!(in alloc; "{number}.{inner}")
    } else {
        format!(in alloc; "{number}")
    }
}

fn has_table(number: u8) -> bool
    ensures { result ≡ has_table number }
{
    number == 4 || number == 21
}

fn error_code(number: u8) -> &'static str
    ensures { result.now ≡ error_code number }
{
    if number == 19 {
        "invalid_transaction_data"
    } else {
        "invalid_request"
    }
}

// The token breaks this rule.
pub(crate) fn not_an_option(alloc: Global, rule: u8) -> Result<Reply, AllocError>
    ensures { IfOk result (λ reply. outcome reply ≡ not_an_option rule) }
{
    Ok(Reply {
        status: Status::NotAnOption,
        text: format!(in alloc; "not an option {rule}\n")?,
    })
}
