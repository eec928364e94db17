// Files of one text.
ghost use Rattle.std.specs.Prelude.{◌≡◌, option_map, string_bytes};
ghost use Rattle.options_files.specs.Contents.{text_in};
ghost use Rattle.wallet_files.specs.CredentialFile.{without_feed};

/// The text of a file with these bytes, without the line feed at its end, if it has one. None where the bytes
/// are no UTF-8. Takes no memory.
pub fn text_in(bytes: Vec<u8>) -> Option<String>
    ensures { option_map string_bytes result ≡ text_in bytes.items }
{
    let Ok(mut text) = String::from_utf8(bytes) else {
        return None;
    };
    cut_feed(&mut text);
    Some(text)
}

// Takes the line feed off the end, if there is one.
fn cut_feed(text: &mut String)
    ensures { string_bytes text.new ≡ without_feed (string_bytes text.old) }
{
    if text.as_str().ends_with('\n') {
        text.pop();
    }
}
