// The rules of credential sets.
ghost use Rattle.std.specs.Prelude.{◌≡◌, map, codes};
ghost use Rattle.serde_json.specs.View.{view};
ghost use Rattle.serde_json.specs.Find.{get};
ghost use Rattle.json_forms.specs.Look.{is_wrong};
ghost use Rattle.dcql_rules.specs.Rules.{is_few, is_option_list, is_credential_set, are_credential_sets};
ghost use Rattle.dcql_rules.specs.Rules.{is_credential_set_list, knows_all_options};

use crate::flags::is_no_boolean;
use crate::ids::knows_all_lists;
use json_forms::{are_text_lists, elements, elements_at};
use serde_json::Value;

// The most credential sets of a query, and options of a credential set.
const MOST_OPTIONS: usize = 16;

// Whether `credential_sets` is there and not of its form.
pub(crate) fn has_wrong_credential_sets(value: &Value) -> bool
    ensures { result ≡ is_wrong is_credential_set_list (get (codes "credential_sets") (view value.now)) }
{
    match value.get("credential_sets") {
        Some(sets) => {
            let sets = elements(sets);
            !is_few(sets) || !are_credential_sets(sets)
        }
        None => false,
    }
}

fn is_few(values: &[Value]) -> bool
    ensures { result ≡ is_few (map view values.now) }
{
    !values.is_empty() && values.len() <= MOST_OPTIONS
}

fn are_credential_sets(sets: &[Value]) -> bool
    ensures { result ≡ are_credential_sets (map view sets.now) }
{
    sets.iter().all(|set| is_credential_set(set))
}

fn is_credential_set(set: &Value) -> bool
    ensures { result ≡ is_credential_set (view set.now) }
{
    match set.get("options") {
        Some(options) => is_option_list(options) && !is_no_boolean(set.get("required")),
        None => false,
    }
}

fn is_option_list(options: &Value) -> bool
    ensures { result ≡ is_option_list (view options.now) }
{
    let options = elements(options);
    is_few(options) && are_text_lists(options)
}

// Whether each name in each option is the id of a credential query.
pub(crate) fn knows_all_options(queries: &[Value], sets: &[Value]) -> bool
    ensures { result ≡ knows_all_options (map view queries.now) (map view sets.now) }
{
    sets.iter().all(|set| knows_all_lists(queries, elements_at(set, "options")))
}
