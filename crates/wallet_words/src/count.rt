// How many options are asked for.
ghost use Rattle.std.specs.Prelude.{◌≡◌, option_map};
ghost use Rattle.wallet_words.specs.Count.{count_asked, count_of};

use itoa::Buffer;

const DEFAULT_COUNT: u32 = 20;

const LEAST: u32 = 1;

const MOST: u32 = 1000;

/// The count that the text says, 20 where there is no text.
pub fn count_asked(text: Option<&str>) -> Option<u32>
    ensures { result ≡ count_asked (option_map (λ s. s.now) text.entry) }
{
    match text {
        Some(text) => read_count(text),
        None => Some(DEFAULT_COUNT),
    }
}

// A decimal number from 1 to 1000 without leading zeros.
fn read_count(text: &str) -> Option<u32>
    ensures { result ≡ count_of text.now }
{
    let Ok(count) = text.parse::<u32>() else {
        return None;
    };
    let mut buffer = Buffer::new();
    if count >= LEAST && count <= MOST && buffer.format(count) == text {
        Some(count)
    } else {
        None
    }
}
