// Kinds of CBOR items, and writing items. Rows of bytes that are read or refused stand in `cbor_check/stdin`.
use crate::told::{Call, are_told};
use base_forms::{from_hex, to_hex};
use cbor_core::{Item, Kind, Writer, read_one};
use std::alloc::Global;
use std::test::Fail;

pub fn integer(alloc: Global, text: &str) -> Result<String, Fail> {
    let number = text.parse::<i64>().ok().ok_or("no integer")?;
    let mut writer = Writer::new(alloc);
    writer.whole(i128::from(number))?;
    Ok(to_hex(alloc, &writer.finish())?)
}

// The kind of the item with these bytes, in which at most one list, map or tag may stand.
pub fn kind(alloc: Global, digits: &str) -> Result<String, Fail> {
    let bytes = from_hex(alloc, digits)?;
    let item = read_one(alloc, &bytes, 1)?;
    Ok(format!(in alloc; "{:?}", item.kind())?)
}

#[test]
fn tells_kinds(rt: HostRuntime) -> Result<(), Fail> {
    let rows = [
        (Call::KindOfItem, "17", "Whole"),
        (Call::KindOfItem, "20", "Whole"),
        (Call::KindOfItem, "40", "Bytes"),
        (Call::KindOfItem, "60", "Text"),
        (Call::KindOfItem, "9fff", "List"),
        (Call::KindOfItem, "a0", "Map"),
        (Call::KindOfItem, "c100", "Tag"),
        (Call::KindOfItem, "f4", "Truth"),
        (Call::KindOfItem, "f6", "Null"),
        (Call::KindOfItem, "f7", "Other"),
        (Call::KindOfItem, "f820", "Other"),
        (Call::KindOfItem, "f90000", "Other"),
    ];
    assert!(rt; are_told(rt.alloc(), &rows)?);
    Ok(())
}

#[test]
fn writes_the_shortest_heads(rt: HostRuntime) -> Result<(), Fail> {
    let rows = [
        (Call::WriteInteger, "23", "17"),
        (Call::WriteInteger, "24", "1818"),
        (Call::WriteInteger, "255", "18ff"),
        (Call::WriteInteger, "256", "190100"),
        (Call::WriteInteger, "65535", "19ffff"),
        (Call::WriteInteger, "65536", "1a00010000"),
        (Call::WriteInteger, "4294967295", "1affffffff"),
        (Call::WriteInteger, "4294967296", "1b0000000100000000"),
        (Call::WriteInteger, "-24", "37"),
        (Call::WriteInteger, "-25", "3818"),
    ];
    assert!(rt; are_told(rt.alloc(), &rows)?);
    Ok(())
}

fn text_item(alloc: Global, text: &str) -> Result<Vec<u8>, Fail> {
    let mut writer = Writer::new(alloc);
    writer.text(text)?;
    Ok(writer.finish())
}

fn least_integer(alloc: Global) -> Result<Vec<u8>, Fail> {
    let mut writer = Writer::new(alloc);
    writer.whole(-18446744073709551616)?;
    Ok(writer.finish())
}

fn bytes_item(alloc: Global, bytes: &[u8]) -> Result<Vec<u8>, Fail> {
    let mut writer = Writer::new(alloc);
    writer.bytes(bytes)?;
    Ok(writer.finish())
}

fn true_item(alloc: Global) -> Result<Vec<u8>, Fail> {
    let mut writer = Writer::new(alloc);
    writer.truth(true)?;
    Ok(writer.finish())
}

// A list of a map with two entries, a tagged null and a boolean.
fn written(alloc: Global) -> Result<Vec<u8>, Fail> {
    let pairs = [
        (text_item(alloc, "age")?, least_integer(alloc)?),
        (bytes_item(alloc, &[7])?, true_item(alloc)?),
    ];
    let mut out = Writer::new(alloc);
    out.list(3)?;
    out.sorted_map(&pairs)?;
    out.tag(24)?;
    out.null()?;
    out.raw(&[0xf5])?;
    Ok(out.finish())
}

fn is_written(alloc: Global, wanted: &str) -> Result<bool, Fail> {
    let bytes = written(alloc)?;
    let digits = to_hex(alloc, &bytes)?;
    Ok(digits.as_str() == wanted)
}

// One after another: a list, a text, bytes, a map, nothing, a boolean, zero, a tag.
fn empties(alloc: Global) -> Result<Vec<u8>, Fail> {
    let mut writer = Writer::new(alloc);
    writer.list(0)?;
    writer.text("")?;
    writer.bytes(&[])?;
    writer.sorted_map(&[])?;
    writer.raw(&[])?;
    writer.truth(false)?;
    writer.whole(0)?;
    writer.tag(0)?;
    Ok(writer.finish())
}

fn are_empties(alloc: Global, wanted: &str) -> Result<bool, Fail> {
    let bytes = empties(alloc)?;
    let digits = to_hex(alloc, &bytes)?;
    Ok(digits.as_str() == wanted)
}

// The map has two entries, and `age` is the least integer.
fn is_map(map: Item) -> bool {
    map.entries().count() == 2 && is_age(map.find("age"))
}

fn is_age(item: Option<Item>) -> bool {
    match item {
        Some(age) => age.whole() == Some(-18446744073709551616),
        None => false,
    }
}

fn is_tagged_null(item: Item) -> bool {
    match item.tag() {
        Some((number, tagged)) => number == 24 && tagged.kind() == Kind::Null,
        None => false,
    }
}

// The list has three elements: the map, the tagged null and a boolean.
fn is_read_again(alloc: Global) -> Result<bool, Fail> {
    let bytes = written(alloc)?;
    let list = read_one(alloc, &bytes, 2)?;
    let mut items = list.items();
    let map = items.next().ok_or("no map")?;
    let tagged = items.next().ok_or("no tag")?;
    let last = items.next().ok_or("no third")?;
    Ok(
        list.kind() == Kind::List
            && is_map(map)
            && is_tagged_null(tagged)
            && last.kind() == Kind::Truth
            && items.next().is_none(),
    )
}

#[test]
fn writes_and_reads(rt: HostRuntime) -> Result<(), Fail> {
    let alloc = rt.alloc();
    assert!(rt; is_written(alloc, "83a24107f5636167653bffffffffffffffffd818f6f5")?);
    assert!(rt; are_empties(alloc, "806040a0f400c0")?);
    assert!(rt; Writer::new(alloc).finish().is_empty());
    assert!(rt; is_read_again(alloc)?);
    Ok(())
}
