// The payload before parts are hidden.
ghost use Rattle.std.specs.Prelude.{◌≡◌, IfOk, OnOk, codes, option_map};
ghost use Rattle.serde_json.specs.View.{view, members_view};
ghost use Rattle.serde_json.specs.Data.{string, put, object as an_object};
ghost use Rattle.sdjwt_issue.specs.Spec.{put_some, moment, confirmation, all_members};
ghost use Rattle.sdjwt_issue.specs.code.Asking.{asked_of};

use crate::spec::SdJwtSpec;
use sdjwt_hiding::NoMemory;
use serde_json::{Map, Value, put};
use std::alloc::Global;

/// The claims of a spec, and beside them what the credential says of itself: `cnf`, `exp`, `nbf`, `vct` and
/// `iss`.
pub fn payload_of(alloc: Global, spec: &SdJwtSpec) -> Result<Value, NoMemory>
    ensures { IfOk result (λ v. view v ≡ an_object (all_members (asked_of spec.now))) }
{
    let mut members = claims_of(alloc, &spec.claims)?;
    put_holder(alloc, &mut members, spec.holder.as_ref())?;
    put_moment(alloc, &mut members, "exp", spec.until)?;
    put_moment(alloc, &mut members, "nbf", spec.from)?;
    put_text(alloc, &mut members, "vct", spec.kind.as_str())?;
    put_text(alloc, &mut members, "iss", spec.issuer.as_str())?;
    Ok(Value::Object(members))
}

// The claims once more.
fn claims_of(alloc: Global, claims: &Map<String, Value>) -> Result<Map<String, Value>, NoMemory>
    ensures { IfOk result (λ m. members_view m.entries ≡ members_view claims.now.entries) }
{
    let mut members = Map::new(alloc);
    for (name, value) in claims {
        put(&mut members, alloc, name.as_str(), value.clone()?)?;
    }
    Ok(members)
}

fn put_text(
    alloc: Global,
    members: &mut Map<String, Value>,
    name: &str,
    text: &str,
) -> Result<(), NoMemory>
    ensures { OnOk result (members_view members.new.entries
        ≡ put name.now (string text.now) (members_view members.old.entries)) }
{
    let value = Value::String(String::from_str(alloc, text)?);
    put(members, alloc, name, value)?;
    Ok(())
}

fn put_moment(
    alloc: Global,
    members: &mut Map<String, Value>,
    name: &str,
    seconds: Option<u64>,
) -> Result<(), NoMemory>
    ensures { OnOk result (members_view members.new.entries
        ≡ put_some name.now (option_map moment seconds) (members_view members.old.entries)) }
{
    if let Some(seconds) = seconds {
        put(members, alloc, name, Value::from(seconds))?;
    }
    Ok(())
}

// The key of the holder, where there is one, in `cnf`.
fn put_holder(
    alloc: Global,
    members: &mut Map<String, Value>,
    holder: Option<&Value>,
) -> Result<(), NoMemory>
    ensures { OnOk result (members_view members.new.entries
        ≡ put_some (codes "cnf") (option_map (λ v. confirmation (view v.now)) holder.entry)
        (members_view members.old.entries)) }
{
    let Some(jwk) = holder else {
        return Ok(());
    };
    let mut confirmation = Map::new(alloc);
    put(&mut confirmation, alloc, "jwk", jwk.clone()?)?;
    put(members, alloc, "cnf", Value::Object(confirmation))?;
    Ok(())
}
