// The file of keys.
ghost use Rattle.std.specs.Prelude.{◌≡◌, ◌<◌, Ok, IfOk, IfErr, IfSome, length, option_map};
ghost use Rattle.bench_device.specs.KeysFile.{kind_of, secret_of, key_of, next_key, keys_in};
ghost use Rattle.bench_device.specs.Refusals.{IsBadLine};
ghost use Rattle.bench_device.specs.code.Keys.{meant, all_meant};

use super::error::{Error, NoMemory};
use super::key::{Key, find_key};
use base_forms::{cut_line, from_hex};
use std::alloc::Global;

const MOST_KEYS: usize = 256;

/// The keys of a file with this text.
pub fn read_keys(alloc: Global, text: &str) -> Result<Vec<Key>, Error>
    ensures keys { IfOk result (λ keys. keys_in text.now ≡ Ok (all_meant keys.items)) }
    ensures refused { IfErr result (IsBadLine (keys_in text.now)) }
{
    let mut keys = Vec::new(alloc);
    let mut number = 1;
    let mut rest = text;
    while !rest.is_empty() {
        let (line, after) = cut_line(rest);
        match next_key(alloc, &keys, line)? {
            Some(key) => keys.push(key)?,
            None => return Err(Error::Line(number)),
        }
        number += 1;
        rest = after;
    }
    Ok(keys)
}

// The key of a line that stands after these.
fn next_key(alloc: Global, keys: &[Key], line: &str) -> Result<Option<Key>, NoMemory>
    ensures next { IfOk result (λ key. option_map meant key ≡ next_key (all_meant keys.now) line.now) }
    ensures few { IfOk result (λ key. IfSome key (λ _. length keys.now < 256)) }
{
    if keys.len() >= MOST_KEYS {
        return Ok(None);
    }
    match key_of(alloc, line)? {
        Some(key) if find_key(keys, key.name.as_str()).is_none() => Ok(Some(key)),
        _ => Ok(None),
    }
}

fn key_of(alloc: Global, line: &str) -> Result<Option<Key>, NoMemory>
    ensures { IfOk result (λ key. option_map meant key ≡ key_of line.now) }
{
    let Some((word, rest)) = line.split_once(' ') else {
        return Ok(None);
    };
    let Some(is_held) = kind_of(word) else {
        return Ok(None);
    };
    let Some((digits, name)) = rest.split_once(' ') else {
        return Ok(None);
    };
    if name.is_empty() {
        return Ok(None);
    }
    let Some(secret) = secret_of(alloc, digits)? else {
        return Ok(None);
    };
    Ok(Some(Key {
        name: String::from_str(alloc, name)?,
        secret,
        is_held,
    }))
}

fn kind_of(word: &str) -> Option<bool>
    ensures { result ≡ kind_of word.now }
{
    if word == "hold" {
        Some(true)
    } else if word == "know" {
        Some(false)
    } else {
        None
    }
}

fn secret_of(alloc: Global, digits: &str) -> Result<Option<Vec<u8>>, NoMemory>
    ensures { IfOk result (λ secret. option_map (λ bytes. bytes.items) secret ≡ secret_of digits.now) }
{
    if digits.len() != 64 {
        return Ok(None);
    }
    match from_hex(alloc, digits) {
        Ok(bytes) => Ok(Some(bytes)),
        Err(base_forms::Error::Refused(_)) => Ok(None),
        Err(base_forms::Error::NoMemory) => Err(NoMemory),
    }
}
