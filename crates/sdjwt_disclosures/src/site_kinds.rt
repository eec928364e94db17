// The kind of disclosure that a site asks for: with a name in an object, without one in a list.
ghost use Rattle.std.specs.Prelude.{◌≡◌};
ghost use Rattle.std.specs.List.{list_any};
ghost use Rattle.sdjwt_disclosures.specs.DisclosureRules.{is_mismatch};
ghost use Rattle.sdjwt_digests.specs.code.Disclosures.{all_said, site_of, sites_said};
ghost use Rattle.sdjwt_digests.specs.code.Sites.{all_in};

use sdjwt_digests::Disclosures;
use sdjwt_digests::digest_sites::{Site, Sites};

fn is_mismatch(disclosures: &Disclosures<'_>, site: Site<'_>) -> bool
    ensures { result ≡ is_mismatch (all_said disclosures.now) (site_of site.entry) }
{
    match site {
        Site::InObject(digest) => match disclosures.find(digest) {
            Some(disclosure) => disclosure.name().is_none(),
            None => false,
        },
        Site::InList(digest) => match disclosures.find(digest) {
            Some(disclosure) => disclosure.name().is_some(),
            None => false,
        },
    }
}

/// Whether some site has the digest of a disclosure of the other kind.
pub fn has_mismatch(disclosures: &Disclosures<'_>, sites: &Sites<'_>) -> bool
    ensures { result ≡ list_any (is_mismatch (all_said disclosures.now)) (all_in sites.now) }
{
    any_mismatch(disclosures, &sites.payload)
        || sites
            .values
            .iter()
            .any(|sites| any_mismatch(disclosures, sites))
}

fn any_mismatch(disclosures: &Disclosures<'_>, sites: &Vec<Site<'_>>) -> bool
    ensures { result ≡ list_any (is_mismatch (all_said disclosures.now)) (sites_said sites.now) }
{
    sites.iter().any(|site| is_mismatch(disclosures, *site))
}
