// What stands under the four names of an issuer-signed item.
ghost use Rattle.std.specs.Prelude.{◌≡◌, codes, option_map};
ghost use Rattle.cbor_core.specs.Seen.{span_of};
ghost use Rattle.cbor_core.specs.Views.{entries_of, find_in};
ghost use Rattle.mdoc_items.specs.code.ItemFields.{or_named};

use cbor_core::Item;

/// The members of an issuer-signed item's map. A member that is not there is `None`.
#[derive(Clone, Copy)]
pub struct ItemFields<'t> {
    pub digest_id: Option<Item<'t>>,
    pub random: Option<Item<'t>>,
    pub element_identifier: Option<Item<'t>>,
    pub element_value: Option<Item<'t>>,
}

impl<'t> ItemFields<'t> {
    /// The values of a map, found by going over it once.
    pub fn of(map: Item<'t>) -> ItemFields<'t>
        ensures digest_id { option_map (λ i. span_of i) result.digest_id ≡ find_in (codes "digestID")
            (entries_of (span_of map.entry)) }
        ensures random { option_map (λ i. span_of i) result.random ≡ find_in (codes "random")
            (entries_of (span_of map.entry)) }
        ensures element_identifier { option_map (λ i. span_of i) result.element_identifier ≡ find_in
            (codes "elementIdentifier") (entries_of (span_of map.entry)) }
        ensures element_value { option_map (λ i. span_of i) result.element_value ≡ find_in
            (codes "elementValue") (entries_of (span_of map.entry)) }
    {
        let mut found = ItemFields {
            digest_id: None,
            random: None,
            element_identifier: None,
            element_value: None,
        };
        for (key, item) in map.entries() {
            if let Some(name) = key.text() {
                found = found.or_named(name, item);
            }
        }
        found
    }

    // These values, or else an item under its name.
    fn or_named(self, name: &str, item: Item<'t>) -> ItemFields<'t>
        ensures digest_id { option_map (λ i. span_of i) result.digest_id ≡ or_named
            (codes "digestID") name.now (span_of item.entry)
            (option_map (λ i. span_of i) self.entry.digest_id) }
        ensures random { option_map (λ i. span_of i) result.random ≡ or_named (codes "random") name.now
            (span_of item.entry) (option_map (λ i. span_of i) self.entry.random) }
        ensures element_identifier { option_map (λ i. span_of i) result.element_identifier ≡ or_named
            (codes "elementIdentifier") name.now (span_of item.entry)
            (option_map (λ i. span_of i) self.entry.element_identifier) }
        ensures element_value { option_map (λ i. span_of i) result.element_value ≡ or_named
            (codes "elementValue") name.now (span_of item.entry)
            (option_map (λ i. span_of i) self.entry.element_value) }
    {
        ItemFields {
            digest_id: or_named(self.digest_id, "digestID", name, item),
            random: or_named(self.random, "random", name, item),
            element_identifier: or_named(self.element_identifier, "elementIdentifier", name, item),
            element_value: or_named(self.element_value, "elementValue", name, item),
        }
    }
}

// What was found, or else the item if it has the wanted name.
fn or_named<'t>(
    found: Option<Item<'t>>,
    wanted: &str,
    name: &str,
    item: Item<'t>,
) -> Option<Item<'t>>
    ensures { option_map (λ i. span_of i) result ≡ or_named wanted.now name.now (span_of item.entry)
        (option_map (λ i. span_of i) found.entry) }
{
    if found.is_none() && name == wanted {
        Some(item)
    } else {
        found
    }
}
