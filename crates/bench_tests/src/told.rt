// What the tests share: the keys of the bench, and what issuing comes to, as one text.
use bench_device::BenchDevice;
use bench_top::{Error, issue};
use key_device::KeyDevice;
use std::alloc::{AllocError, Global};
use std::test::Fail;

const KEYS: &str =
    r#"hold 0101010101010101010101010101010101010101010101010101010101010101 kid:["https://pid.example","p1"]
hold 0202020202020202020202020202020202020202020202020202020202020202 mkid:6d31
know 0303030303030303030303030303030303030303030303030303030303030303 kid:["a","known"]
"#;

/// A device with the keys of two issuers, and one of a third that it knows and does not hold.
pub fn device(alloc: Global) -> Result<BenchDevice, Fail> {
    match BenchDevice::from_text(alloc, KEYS) {
        Ok(device) => Ok(device),
        Err(_) => Err(AllocError)?,
    }
}

/// The text that is issued, or why none is.
pub fn told<K: KeyDevice>(alloc: Global, spec: &str, device: &mut K) -> Result<String, Fail> {
    match issue(alloc, spec, device) {
        Ok(text) => Ok(text),
        Err(Error::Refused(rule)) => Ok(format!(in alloc; "{rule}")?),
        Err(Error::KeyMissing) => Ok(String::from_str(alloc, "key missing")?),
        Err(Error::DeviceFault) => Ok(String::from_str(alloc, "device fault")?),
        Err(Error::NoMemory) => Err(AllocError)?,
    }
}

/// Whether each spec comes to what stands beside it, by a device of the bench's keys.
pub fn are_told(alloc: Global, rows: &[(&str, &str)]) -> Result<bool, Fail> {
    let mut device = device(alloc)?;
    for (spec, wanted) in rows {
        if told(alloc, spec, &mut device)?.as_str() != *wanted {
            return Ok(false);
        }
    }
    Ok(true)
}
