//! The head of an item: its major type and its argument (RFC 8949, section 3).

ghost use Rattle.std.specs.Prelude.{◌≡◌, ◌<◌, length};
ghost use Rattle.std.specs.Int.{w8, w16, w32, w64};
ghost use Rattle.cbor_validity.specs.Head.{Gives, number_at, argument_at, head_of, open_head_of, head_at};

/// Why bytes do not begin with an item.
#[derive(Clone, Copy, Debug, PartialEq, Eq)]
pub enum Fault {
    /// The bytes end within the item.
    Short,
    /// A reserved head.
    Reserved,
    /// A string in chunks.
    Chunked,
    /// More lists, maps and tags inside one another than are allowed.
    Deep,
}

/// A head. A list or a map with no count ends at a break.
#[derive(Clone, Copy, Debug, PartialEq, Eq)]
pub enum Head {
    Unsigned(u64),
    Negative(u64),
    Bytes(u64),
    Text(u64),
    List(Option<u64>),
    Map(Option<u64>),
    Tag(u64),
    Simple(u64),
    Float,
    Break,
}

#[inline]
fn u8_at(bytes: &[u8]) -> Result<(u64, &[u8]), Fault>
    ensures { Gives (λ x. (x.0, x.1.now)) result (number_at w8 bytes.now) }
{
    if bytes.len() < 1 {
        return Err(Fault::Short);
    }
    let (front, rest) = bytes.split_at(1);
    let number = u8::from_be_bytes([front[0]]);
    Ok((u64::from(number), rest))
}

#[inline]
fn u16_at(bytes: &[u8]) -> Result<(u64, &[u8]), Fault>
    ensures { Gives (λ x. (x.0, x.1.now)) result (number_at w16 bytes.now) }
{
    if bytes.len() < 2 {
        return Err(Fault::Short);
    }
    let (front, rest) = bytes.split_at(2);
    let number = u16::from_be_bytes([front[0], front[1]]);
    Ok((u64::from(number), rest))
}

#[inline]
fn u32_at(bytes: &[u8]) -> Result<(u64, &[u8]), Fault>
    ensures { Gives (λ x. (x.0, x.1.now)) result (number_at w32 bytes.now) }
{
    if bytes.len() < 4 {
        return Err(Fault::Short);
    }
    let (front, rest) = bytes.split_at(4);
    let number = u32::from_be_bytes([front[0], front[1], front[2], front[3]]);
    Ok((u64::from(number), rest))
}

#[inline]
fn u64_at(bytes: &[u8]) -> Result<(u64, &[u8]), Fault>
    ensures { Gives (λ x. (x.0, x.1.now)) result (number_at w64 bytes.now) }
{
    if bytes.len() < 8 {
        return Err(Fault::Short);
    }
    let (front, rest) = bytes.split_at(8);
    let number = u64::from_be_bytes([
        front[0], front[1], front[2], front[3], front[4], front[5], front[6], front[7],
    ]);
    Ok((number, rest))
}

/// The argument of a head whose additional information is `info`.
#[tactic(auto, unfolding(crate::specs::Head::argument_at))]
#[inline]
fn argument_at(info: u8, bytes: &[u8]) -> Result<(u64, &[u8]), Fault>
    ensures { Gives (λ x. (x.0, x.1.now)) result (argument_at info bytes.now) }
{
    if info < 24 {
        return Ok((u64::from(info), bytes));
    }
    match info {
        24 => u8_at(bytes),
        25 => u16_at(bytes),
        26 => u32_at(bytes),
        27 => u64_at(bytes),
        _ => Err(Fault::Reserved),
    }
}

/// The head of a major type with an argument.
#[tactic(auto, unfolding(crate::specs::Head::head_of))]
#[inline]
fn head_of(major: u8, info: u8, argument: u64) -> Result<Head, Fault>
    requires { major < 8 }
    ensures { Gives (λ h. h) result (head_of major info argument) }
{
    match major {
        0 => Ok(Head::Unsigned(argument)),
        1 => Ok(Head::Negative(argument)),
        2 => Ok(Head::Bytes(argument)),
        3 => Ok(Head::Text(argument)),
        4 => Ok(Head::List(Some(argument))),
        5 => Ok(Head::Map(Some(argument))),
        6 => Ok(Head::Tag(argument)),
        _ => {
            if info == 24 && argument < 32 {
                return Err(Fault::Reserved);
            }
            if info < 25 {
                Ok(Head::Simple(argument))
            } else {
                Ok(Head::Float)
            }
        }
    }
}

/// The head of a major type with no argument.
#[tactic(auto, unfolding(crate::specs::Head::open_head_of))]
#[inline]
fn open_head_of(major: u8) -> Result<Head, Fault>
    requires { major < 8 }
    ensures { Gives (λ h. h) result (open_head_of major) }
{
    match major {
        2 | 3 => Err(Fault::Chunked),
        4 => Ok(Head::List(None)),
        5 => Ok(Head::Map(None)),
        7 => Ok(Head::Break),
        _ => Err(Fault::Reserved),
    }
}

/// The head at the front, and the bytes after it.
#[tactic(auto, unfolding(crate::specs::Head::head_at))]
#[inline]
pub fn head_at(bytes: &[u8]) -> Result<(Head, &[u8]), Fault>
    ensures { Gives (λ x. (x.0, x.1.now)) result (head_at bytes.now) }
{
    let Some((first, rest)) = bytes.split_first() else {
        return Err(Fault::Short);
    };
    let major = *first / 32;
    let info = *first % 32;
    if info == 31 {
        let head = open_head_of(major)?;
        return Ok((head, rest));
    }
    let (argument, rest) = argument_at(info, rest)?;
    let head = head_of(major, info, argument)?;
    Ok((head, rest))
}

/// The most lists, maps and tags that may stand inside one another in an item.
pub const MAX_DEPTH: u32 = 64;
