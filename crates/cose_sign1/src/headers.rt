// Looking into headers.
ghost use Rattle.std.specs.Prelude.{◌≡◌, option_map};
ghost use Rattle.cbor_core.specs.Seen.{span_of};
ghost use Rattle.cbor_core.specs.Views.{entries_of};
ghost use Rattle.cose_sign1.specs.Sign1.{is_label, find_label};

use cbor_core::Item;

/// The value of a label in a map of headers.
pub fn find_label<'a>(headers: Item<'a>, label: i128) -> Option<Item<'a>>
    ensures { option_map (λ i. span_of i) result ≡ find_label label (entries_of (span_of headers.entry)) }
{
    for (key, value) in headers.entries() {
        if is_label(key, label) {
            return Some(value);
        }
    }
    None
}

fn is_label(key: Item, label: i128) -> bool
    ensures { result ≡ is_label label (span_of key.entry) }
{
    match key.whole() {
        Some(n) => n == label,
        None => false,
    }
}
