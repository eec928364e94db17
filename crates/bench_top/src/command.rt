// The words of a command.
ghost use Rattle.std.specs.Prelude.{◌≡◌, ◌∷◌, [], map, option_map, string_bytes};
ghost use Rattle.bench_top.specs.Command.{spec_named};

/// The name of the spec's file, where the words are `issue` and this name.
pub fn spec_named(words: &[String]) -> Option<&str>
    ensures { option_map (λ name. name.now) result ≡ spec_named (map string_bytes words.now) }
{
    match words {
        [word, name] => issue_of(word.as_str(), name.as_str()),
        _ => None,
    }
}

// The name, where the word is `issue`.
fn issue_of<'a>(word: &str, name: &'a str) -> Option<&'a str>
    ensures { option_map (λ name. name.now) result ≡ spec_named (word.now ∷ name.now ∷ []) }
{
    if word == "issue" { Some(name) } else { None }
}
