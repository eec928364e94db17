//! Deterministic writing of items (RFC 8949, section 4.2.1).

ghost use Rattle.std.specs.Prelude.{◌≡◌, ◌++◌, ◌∷◌, [], ◌<◌, ◌^◌, ◌-◌, ◌≤ℤ◌, ◌<ℤ◌, pos, negsuc, length, IfOk};
ghost use Rattle.std.specs.Prelude.{OnOk, OnErr};
ghost use Rattle.cbor_writer.specs.Writing.{head_bytes, whole_bytes, string_bytes, text_bytes};
ghost use Rattle.cbor_writer.specs.Writing.{byte_string_bytes, truth_bytes, null_bytes, pairs_bytes};
ghost use Rattle.cbor_writer.specs.Order.{owned, lent, AppendsSortedMap};

use crate::error::NoMemory;
use crate::order::in_order;
use std::alloc::Global;
use std::marker::Model;

/// Appends the shortest head. An `Err` changes nothing.
#[tactic(auto, unfolding(crate::specs::Writing::head_bytes))]
fn put_head(out: &mut Vec<u8>, major: u8, n: u64) -> Result<(), NoMemory>
    requires { major < 8 }
    ensures ok { OnOk result (out.new.items ≡ out.old.items ++ head_bytes major n) }
    ensures err { OnErr result (out.new.items ≡ out.old.items) }
{
    let first = major * 32;
    if n < 24 {
        out.push(first + n as u8)?;
        return Ok(());
    }
    if n < 256 {
        out.extend_from_slice(&[first + 24, n as u8])?;
        return Ok(());
    }
    if n < 65536 {
        let [a, b] = (n as u16).to_be_bytes();
        out.extend_from_slice(&[first + 25, a, b])?;
        return Ok(());
    }
    if n < 4294967296 {
        let [a, b, c, d] = (n as u32).to_be_bytes();
        out.extend_from_slice(&[first + 26, a, b, c, d])?;
        return Ok(());
    }
    let [a, b, c, d, e, f, g, h] = n.to_be_bytes();
    out.extend_from_slice(&[first + 27, a, b, c, d, e, f, g, h])?;
    Ok(())
}

/// Appends a byte string or a text string. An `Err` changes nothing.
fn put_string(out: &mut Vec<u8>, major: u8, content: &[u8]) -> Result<(), NoMemory>
    requires { major < 8 }
    ensures ok { OnOk result (out.new.items ≡ out.old.items ++ string_bytes major content.now) }
    ensures err { OnErr result (out.new.items ≡ out.old.items) }
{
    let before = out.len();
    put_head(out, major, content.len() as u64)?;
    match out.extend_from_slice(content) {
        Ok(()) => Ok(()),
        Err(_) => {
            out.truncate(before);
            Err(NoMemory)
        }
    }
}

/// Appends the pairs, one after another.
fn put_pairs(out: &mut Vec<u8>, pairs: &[(&[u8], &[u8])]) -> Result<(), NoMemory>
    ensures { OnOk result (out.new.items ≡ out.old.items ++ pairs_bytes (lent pairs.now)) }
{
    for pair in pairs {
        out.extend_from_slice(pair.0)?;
        out.extend_from_slice(pair.1)?;
    }
    Ok(())
}

/// The map of these pairs, in the bytewise order of their keys.
fn sorted_map(alloc: Global, pairs: &[(Vec<u8>, Vec<u8>)]) -> Result<Vec<u8>, NoMemory>
    ensures { IfOk result (λ map. AppendsSortedMap [] map.items (owned pairs.now)) }
{
    let order = in_order(alloc, pairs)?;
    let mut map = Vec::new(alloc);
    put_head(&mut map, 5, pairs.len() as u64)?;
    put_pairs(&mut map, &order)?;
    Ok(map)
}

/// Writes items one after another, with the shortest heads, definite lengths, and the keys of a map in the
/// bytewise order of their encodings. Contracts see the bytes that were written. A call that fails writes
/// nothing.
#[derive(Drop)]
pub struct Writer {
    out: Vec<u8>,
}

impl Model for Writer {
    ghost use Rattle.std.specs.Prelude.{List, ℕ};

    ghost Value = { List ℕ };

    ghost view = { λ w. w.out.items };
}

impl Writer {
    pub fn new(alloc: Global) -> Writer
        ensures { result ≡ [] }
    {
        Writer {
            out: Vec::new(alloc),
        }
    }

    /// Writes an integer, from -2^64 to 2^64 - 1.
    pub fn whole(&mut self, n: i128) -> Result<(), NoMemory>
        requires low { negsuc (2 ^ 64 - 1) ≤ℤ n }
        requires high { n <ℤ pos (2 ^ 64) }
        ensures ok { OnOk result (self.new ≡ self.old ++ whole_bytes n) }
        ensures err { OnErr result (self.new ≡ self.old) }
    {
        if n >= 0 {
            put_head(&mut self.out, 0, n as u64)
        } else {
            put_head(&mut self.out, 1, (-1 - n) as u64)
        }
    }

    /// Writes a text string.
    pub fn text(&mut self, text: &str) -> Result<(), NoMemory>
        ensures ok { OnOk result (self.new ≡ self.old ++ text_bytes text.now) }
        ensures err { OnErr result (self.new ≡ self.old) }
    {
        put_string(&mut self.out, 3, text.as_bytes())
    }

    /// Writes a byte string.
    pub fn bytes(&mut self, bytes: &[u8]) -> Result<(), NoMemory>
        ensures ok { OnOk result (self.new ≡ self.old ++ byte_string_bytes bytes.now) }
        ensures err { OnErr result (self.new ≡ self.old) }
    {
        put_string(&mut self.out, 2, bytes)
    }

    /// Writes the head of a list of `n` items. The items follow.
    pub fn list(&mut self, n: u64) -> Result<(), NoMemory>
        ensures ok { OnOk result (self.new ≡ self.old ++ head_bytes 4 n) }
        ensures err { OnErr result (self.new ≡ self.old) }
    {
        put_head(&mut self.out, 4, n)
    }

    /// Writes the head of a tag. The item that is tagged follows.
    pub fn tag(&mut self, n: u64) -> Result<(), NoMemory>
        ensures ok { OnOk result (self.new ≡ self.old ++ head_bytes 6 n) }
        ensures err { OnErr result (self.new ≡ self.old) }
    {
        put_head(&mut self.out, 6, n)
    }

    /// Writes a boolean.
    pub fn truth(&mut self, truth: bool) -> Result<(), NoMemory>
        ensures ok { OnOk result (self.new ≡ self.old ++ truth_bytes truth) }
        ensures err { OnErr result (self.new ≡ self.old) }
    {
        self.out.push(if truth { 245 } else { 244 })?;
        Ok(())
    }

    /// Writes null.
    pub fn null(&mut self) -> Result<(), NoMemory>
        ensures ok { OnOk result (self.new ≡ self.old ++ null_bytes) }
        ensures err { OnErr result (self.new ≡ self.old) }
    {
        self.out.push(246)?;
        Ok(())
    }

    /// Writes the bytes as they are, such as an encoded item.
    pub fn raw(&mut self, bytes: &[u8]) -> Result<(), NoMemory>
        ensures ok { OnOk result (self.new ≡ self.old ++ bytes.now) }
        ensures err { OnErr result (self.new ≡ self.old) }
    {
        self.out.extend_from_slice(bytes)?;
        Ok(())
    }

    /// Writes the map of these keys and values, each of them an encoded item. Equal keys stand in any order.
    pub fn sorted_map(&mut self, pairs: &[(Vec<u8>, Vec<u8>)]) -> Result<(), NoMemory>
        ensures ok { OnOk result (AppendsSortedMap self.old self.new (owned pairs.now)) }
        ensures err { OnErr result (self.new ≡ self.old) }
    {
        let map = sorted_map(*self.out.allocator(), pairs)?;
        self.out.extend_from_slice(&map)?;
        Ok(())
    }

    /// The bytes that were written.
    pub fn finish(self) -> Vec<u8>
        ensures { result.items ≡ self }
    {
        self.out
    }
}
