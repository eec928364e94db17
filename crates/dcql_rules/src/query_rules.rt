// The rules of a whole query, and the least that is broken.
ghost use Rattle.std.specs.Prelude.{◌≡◌, map, nat_lt, length};
ghost use Rattle.serde_json.specs.View.{view};
ghost use Rattle.dcql_rules.specs.Rules.{least_credential_rule, query_rule};

use crate::credential_rules::credential_rule;
use crate::credential_set_rules::{has_wrong_credential_sets, knows_all_options};
use crate::ids::{all_have_right_ids, has_equal_ids};
use base_forms::lesser;
use json_forms::elements_at;
use serde_json::Value;

// The most credential queries of a query.
const MOST_QUERIES: usize = 16;

/// The least rule that a query in JSON breaks, wherever it breaks it. Members that the language does not
/// name are passed over.
///
/// 1. It is no object, or `credentials` is missing or no list that has elements.
/// 2. There are more than 16 credential queries.
/// 3. A credential query is no object, or its `id` is no string of one or more ASCII letters, ASCII
///    digits, `_` and `-`.
/// 4. Two credential queries have the same id.
/// 5. `format` is missing or no string.
/// 6. `multiple` is there and no boolean.
/// 7. `require_cryptographic_holder_binding` is there and no boolean.
/// 8. `trusted_authorities` is there.
/// 9. `meta` is there and no object; or, for `dc+sd-jwt`, its `vct_values` is there and no list, not
///    empty, of strings; or, for `mso_mdoc`, its `doctype_value` is there and no string.
/// 10. `claims` is there and no list, not empty, of objects.
/// 11. There are more than 64 claims.
/// 12. A claim's `id` is there and not of the form that rule 3 asks of an id.
/// 13. Two claims of one credential query have the same id.
/// 14. A claim's `path` is missing or refused.
/// 15. For `mso_mdoc`, a path is not two strings.
/// 16. A claim's `values` is there and refused.
/// 17. `claim_sets` is there without `claims`, or is no list, not empty, of lists, not empty, of
///     strings.
/// 18. There are more than 32 claim sets.
/// 19. There are claim sets, and a claim has no `id`.
/// 20. A claim set names no claim of its credential query.
/// 21. `credential_sets` is there and no list of 1 to 16 objects, each with `options`, a list of 1 to
///     16 lists, not empty, of strings, and with `required` absent or a boolean.
/// 22. An option names no credential query.
#[tactic(auto, unfolding(base_forms::specs::Rules::rule))]
pub fn query_rule(value: &Value) -> Option<u8>
    ensures { result ≡ query_rule (view value.now) }
{
    let queries = elements_at(value, "credentials");
    if queries.is_empty() {
        return Some(1);
    }
    if are_too_many_queries(queries) {
        return Some(2);
    }
    if !all_have_right_ids(queries) {
        return Some(3);
    }
    if has_equal_ids(queries) {
        return Some(4);
    }
    if let Some(rule) = least_credential_rule(queries) {
        return Some(rule);
    }
    if has_wrong_credential_sets(value) {
        return Some(21);
    }
    if !knows_all_options(queries, elements_at(value, "credential_sets")) {
        return Some(22);
    }
    None
}

fn are_too_many_queries(queries: &[Value]) -> bool
    ensures { result ≡ nat_lt 16 (length queries.now) }
{
    queries.len() > MOST_QUERIES
}

fn least_credential_rule(queries: &[Value]) -> Option<u8>
    ensures { result ≡ least_credential_rule (map view queries.now) }
{
    let mut least = None;
    for query in queries {
        least = lesser(least, credential_rule(query));
    }
    least
}
