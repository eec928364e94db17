// The names of keys.
ghost use Rattle.std.specs.Prelude.{◌≡◌};
ghost use Rattle.spec_forms.specs.KeyNames.{after_colon};

/// What stands after the first colon of a key's name, and nothing where there is none.
pub fn after_colon(name: &str) -> &str
    ensures { result.now ≡ after_colon name.now }
{
    match name.split_once(':') {
        Some((_, rest)) => rest,
        None => "",
    }
}
