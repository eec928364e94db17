// The parameters of a link.
ghost use Rattle.std.specs.Prelude.{◌≡◌, IfOk, codes, map, string_bytes};
ghost use Rattle.form_urlencoded.specs.Form.{raw_pairs};
ghost use Rattle.request_links.specs.Link.{named};

use form_urlencoded::parse;
use std::alloc::{AllocError, Global};

/// The values that a form has under each of the three names that are looked at.
#[derive(Drop)]
pub struct Parameters {
    pub clients: Vec<String>,
    pub requests: Vec<String>,
    pub references: Vec<String>,
}

impl Parameters {
    pub fn of(alloc: Global, form: &str) -> Result<Parameters, AllocError>
        ensures clients { IfOk result (λ p. map (λ s. string_bytes s) p.clients.items
            ≡ named (codes "client_id") (raw_pairs form.now)) }
        ensures requests { IfOk result (λ p. map (λ s. string_bytes s) p.requests.items
            ≡ named (codes "request") (raw_pairs form.now)) }
        ensures references { IfOk result (λ p. map (λ s. string_bytes s) p.references.items
            ≡ named (codes "request_uri") (raw_pairs form.now)) }
    {
        Ok(Parameters {
            clients: values_of(alloc, form, "client_id")?,
            requests: values_of(alloc, form, "request")?,
            references: values_of(alloc, form, "request_uri")?,
        })
    }
}

// The values of the pairs with this name, decoded.
fn values_of(alloc: Global, form: &str, name: &str) -> Result<Vec<String>, AllocError>
    ensures { IfOk result (λ v. map (λ s. string_bytes s) v.items ≡ named name.now (raw_pairs form.now)) }
{
    let mut values = Vec::new(alloc);
    for pair in parse(alloc, form.as_bytes()) {
        let (key, value) = pair?;
        if key.as_str() == name {
            values.push(value.into_owned(alloc)?)?;
        }
    }
    Ok(values)
}
