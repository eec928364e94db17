// A clock in memory.
use crate::told::{Call, are_told};
use outside::{Clock, Failed, MemoryClock};
use std::alloc::Global;
use std::test::Fail;

// What two calls answer of a clock with these moments, which stand between blanks.
pub fn moments(alloc: Global, text: &str) -> Result<String, Fail> {
    let mut clock = clock_of(alloc, text)?;
    let mut told = one(alloc, clock.now())?;
    told.push_str("/")?;
    told.push_str(one(alloc, clock.now())?.as_str())?;
    Ok(told)
}

fn clock_of(alloc: Global, text: &str) -> Result<MemoryClock, Fail> {
    let mut moments = Vec::new(alloc);
    for word in text.split_whitespace() {
        moments.push(word.parse::<u64>()?)?;
    }
    Ok(MemoryClock::new(alloc, &moments)?)
}

fn one(alloc: Global, answer: Result<u64, Failed>) -> Result<String, Fail> {
    match answer {
        Ok(moment) => Ok(format!(in alloc; "{moment}")?),
        Err(Failed) => Ok(String::from_str(alloc, "fault")?),
    }
}

#[test]
fn clocks(rt: HostRuntime) -> Result<(), Fail> {
    let rows = [
        (Call::MemoryClock, "1750000000 7", "1750000000/7"),
        (
            Call::MemoryClock,
            "0 18446744073709551615 3",
            "0/18446744073709551615",
        ),
        (Call::MemoryClock, "5", "5/fault"),
        (Call::MemoryClock, "", "fault/fault"),
    ];
    assert!(rt; are_told(rt.alloc(), &rows)?);
    Ok(())
}
