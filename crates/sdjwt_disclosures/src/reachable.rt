// The disclosures that are reached from the payload, directly and through other disclosures.
ghost use Rattle.std.specs.Prelude.{◌≡◌, true, IfOk, map, length};
ghost use Rattle.base_forms.specs.Texts.{differ};
ghost use Rattle.sdjwt_digests.specs.DigestSites.{sites_in};
ghost use Rattle.sdjwt_digests.specs.code.Disclosures.{all_said, site_of, sites_said};
ghost use Rattle.sdjwt_disclosures.specs.code.Marked.{marked, walked, walked_from, all_walked};

use sdjwt_digests::Disclosures;
use sdjwt_digests::digest_sites::{Site, Sites};
use std::alloc::{AllocError, Global};

/// Whether the digest of each disclosure is reached from the payload, by the sites in the payload and in the
/// disclosures' values.
pub fn are_reached<'a>(
    alloc: Global,
    disclosures: &Disclosures<'a>,
    sites: &Sites<'a>,
) -> Result<bool, AllocError>
    requires differ { differ (map (λ l. l.digest) (all_said disclosures.now)) ≡ true }
    requires values { map sites_said sites.now.values.items
        ≡ map (λ l. sites_in l.value) (all_said disclosures.now) }
    ensures { IfOk result (λ b. b ≡ all_walked (sites_said sites.now.payload) (all_said disclosures.now)) }
{
    let count = disclosures.list().len();
    let mut marks = vec![in alloc; false; count]?;
    mark_reached(
        count + 1,
        disclosures,
        &sites.values,
        &sites.payload,
        &mut marks,
    );
    Ok(marks.iter().all(|mark| *mark))
}

// Marks the disclosures whose digests stand at these sites and, through at most `fuel` - 1 disclosures inside
// one another, in their values. The sites of each value are those at its place. Marks none where `fuel` is 0.
#[cycle(mark)]
fn mark_reached<'a>(
    fuel: usize,
    disclosures: &Disclosures<'a>,
    values: &[Vec<Site<'a>>],
    sites: &[Site<'a>],
    marks: &mut Vec<bool>,
)
    requires differ { differ (map (λ l. l.digest) (all_said disclosures.now)) ≡ true }
    requires values { map sites_said values.now ≡ map (λ l. sites_in l.value) (all_said disclosures.now) }
    requires marks { length marks.old.items ≡ length (all_said disclosures.now) }
    ensures { marks.new.items
        ≡ marked (walked fuel (all_said disclosures.now) (map site_of sites.now))
        (all_said disclosures.now) marks.old.items }
{
    if fuel == 0 {
        return;
    }
    for site in sites {
        mark_site(fuel - 1, disclosures, values, *site, marks);
    }
}

// Marks the disclosure whose digest stands at this site, if there is one, and what is reached from its value.
#[cycle(mark)]
fn mark_site<'a>(
    fuel: usize,
    disclosures: &Disclosures<'a>,
    values: &[Vec<Site<'a>>],
    site: Site<'a>,
    marks: &mut Vec<bool>,
)
    requires differ { differ (map (λ l. l.digest) (all_said disclosures.now)) ≡ true }
    requires values { map sites_said values.now ≡ map (λ l. sites_in l.value) (all_said disclosures.now) }
    requires marks { length marks.old.items ≡ length (all_said disclosures.now) }
    ensures { marks.new.items ≡ marked (walked_from fuel (all_said disclosures.now) (site_of site.entry))
        (all_said disclosures.now) marks.old.items }
{
    let Some(index) = disclosures.index_of(site.digest()) else {
        return;
    };
    marks[index] = true;
    mark_reached(fuel, disclosures, values, &values[index], marks);
}
