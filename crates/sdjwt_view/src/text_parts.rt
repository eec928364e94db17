// The parts of an SD-JWT's text.
ghost use Rattle.std.specs.Prelude.{◌≡◌, ◌==◌, IfOk, List, map, option_map};
ghost use Rattle.std.specs.List.{slice_split};
ghost use Rattle.sdjwt_view.specs.Reading.{pieces, parts_of};

use std::alloc::{AllocError, Global};

/// The issuer's JWS and the texts of the disclosures.
#[derive(Drop)]
pub struct Parts<'t> {
    pub jws: &'t str,
    pub disclosures: Vec<&'t str>,
}

/// The parts of a text that ends in `~`.
pub fn split<'t>(alloc: Global, text: &'t str) -> Result<Option<Parts<'t>>, AllocError>
    ensures { IfOk result
        (λ o. option_map (λ p. (p.jws.now, map (λ s. s.now) p.disclosures.items)) o ≡ parts_of
        (pieces text.now)) }
{
    let pieces = pieces(alloc, text)?;
    let Some((jws, rest)) = pieces.split_first() else {
        return Ok(None);
    };
    let Some((last, disclosures)) = rest.split_last() else {
        return Ok(None);
    };
    if !last.is_empty() {
        return Ok(None);
    }
    Ok(Some(Parts {
        jws,
        disclosures: Vec::from_slice(alloc, disclosures)?,
    }))
}

fn pieces<'t>(alloc: Global, text: &'t str) -> Result<Vec<&'t str>, AllocError>
    ensures { IfOk result (λ v. map (λ s. s.now) v.items ≡ pieces text.now) }
{
    text.split('~').collect(alloc)
}
