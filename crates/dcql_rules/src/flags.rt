// Booleans that may be absent.
ghost use Rattle.std.specs.Prelude.{◌≡◌, option_map};
ghost use Rattle.serde_json.specs.View.{view};
ghost use Rattle.json_forms.specs.Look.{is_wrong};
ghost use Rattle.dcql_rules.specs.Flags.{flag_at};
ghost use Rattle.dcql_rules.specs.Rules.{is_boolean};

use serde_json::Value;

// Whether a value is there and no boolean.
pub(crate) fn is_no_boolean(value: Option<&Value>) -> bool
    ensures { result ≡ is_wrong is_boolean (option_map (λ v. view v.now) value.entry) }
{
    match value {
        Some(value) => !value.is_boolean(),
        None => false,
    }
}

/// The boolean at a name, or `usual` where none stands there.
pub fn flag_at(value: &Value, name: &str, usual: bool) -> bool
    ensures { result ≡ flag_at name.now usual (view value.now) }
{
    match value.get(name) {
        Some(flag) => flag.as_bool().unwrap_or(usual),
        None => usual,
    }
}
