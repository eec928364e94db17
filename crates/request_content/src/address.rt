// Response addresses.
ghost use Rattle.std.specs.Prelude.{◌≡◌, IfOk, false};
ghost use Rattle.serde_json.specs.View.{view};
ghost use Rattle.request_content.specs.Content.{is_address, has_address};

use json_forms::text_at;
use serde_json::Value;
use std::alloc::{AllocError, Global};
use url::{ParseError, Url};

/// Whether the response address is an absolute URL. No URL of 4 GB or more is read: that is out of memory.
pub fn has_address(alloc: Global, payload: &Value) -> Result<bool, AllocError>
    ensures { IfOk result (λ b. b ≡ has_address (view payload.now)) }
{
    match text_at(payload, "response_uri") {
        Some(text) => is_address(alloc, text),
        None => Ok(false),
    }
}

fn is_address(alloc: Global, text: &str) -> Result<bool, AllocError>
    ensures { IfOk result (λ b. b ≡ is_address text.now) }
{
    match Url::parse(alloc, text) {
        Ok(_) => Ok(true),
        Err(ParseError::OutOfMemory) => Err(AllocError),
        Err(ParseError::Overflow) => Err(AllocError),
        Err(_) => Ok(false),
    }
}
