// The members of objects.
ghost use Rattle.std.specs.Prelude.{◌≡◌, option_map};
ghost use Rattle.serde_json.specs.View.{view, members_view};
ghost use Rattle.serde_json.specs.Find.{get_member};

use serde_json::{Map, Value};

/// The member of this name, where the object has one.
pub fn member_named<'v>(object: &'v Map<String, Value>, name: &str) -> Option<&'v Value>
    ensures { option_map (λ v. view v.now) result ≡ get_member name.now (members_view object.now.entries) }
{
    object.get(name)
}
