// Devices of keys, and the file of the bench's keys.
use crate::told::{Call, answer, are_told};
use base_forms::to_hex;
use bench_device::{BenchDevice, Error, KeysError};
use claim_tree::{Alg, KeyName};
use key_device::{Judged, KeyDevice, MemoryDevice, NoMemory, SignError};
use outside::MemoryStore;
use std::alloc::Global;
use std::test::Fail;

// What comes of a text of keys: how the name `k` is held, or the line that is refused.
pub fn keys(alloc: Global, text: &str) -> Result<String, Fail> {
    match BenchDevice::from_text(alloc, text) {
        Ok(device) => held(alloc, &device),
        Err(Error::Line(line)) => Ok(format!(in alloc; "line {line}")?),
        Err(error) => Err(error)?,
    }
}

fn held(alloc: Global, device: &BenchDevice) -> Result<String, Fail> {
    match device.holds(&KeyName::from_text(alloc, "k")?) {
        Some(alg) => Ok(format!(in alloc; "{alg:?}")?),
        None => Ok(String::from_str(alloc, "none")?),
    }
}

// The same of a file.
pub fn keys_file(alloc: Global, text: &str) -> Result<String, Fail> {
    file(alloc, text.as_bytes())
}

fn file(alloc: Global, bytes: &[u8]) -> Result<String, Fail> {
    let mut store = MemoryStore::new(alloc);
    store.put("device.keys", bytes)?;
    from_store(alloc, &mut store)
}

fn from_store(alloc: Global, store: &mut MemoryStore) -> Result<String, Fail> {
    match BenchDevice::from_store(alloc, store) {
        Ok(device) => held(alloc, &device),
        Err(KeysError::Line(line)) => Ok(format!(in alloc; "line {line}")?),
        Err(KeysError::ReadFault) => Ok(String::from_str(alloc, "read fault")?),
        Err(KeysError::TooLong) => Ok(String::from_str(alloc, "too long")?),
        Err(error) => Err(error)?,
    }
}

// The signature of a message by a secret, and what is said of it: by the algorithm's name, by its number, by
// another name.
pub fn bench_signature(alloc: Global, text: &str) -> Result<String, Fail> {
    let (secret, message) = text.split_once(' ').ok_or("no blank")?;
    let mut device = BenchDevice::from_text(alloc, &format!(in alloc; "hold {secret} k")?)?;
    let name = KeyName::from_text(alloc, "k")?;
    let signature = signature_by(alloc, &mut device, &name, message)?;
    let jose = device.judge(&name, Alg::Jose("BENCH256"), message.as_bytes(), &signature);
    let cose = device.judge(&name, Alg::Cose(-70256), message.as_bytes(), &signature);
    let other = device.judge(&name, Alg::Jose("ES256"), message.as_bytes(), &signature);
    let hex = to_hex(alloc, &signature)?;
    Ok(format!(in alloc; "{hex} {jose:?} {cose:?} {other:?}")?)
}

fn signature_by<K: KeyDevice>(
    alloc: Global,
    device: &mut K,
    name: &KeyName,
    message: &str,
) -> Result<Vec<u8>, Fail> {
    if device.holds(name).is_none() {
        return Err("not held")?;
    }
    Ok(device.sign(alloc, name, message.as_bytes())?)
}

// A key that is known is judged.
pub fn known(alloc: Global, text: &str) -> Result<String, Fail> {
    let mut holding = BenchDevice::from_text(alloc, &format!(in alloc; "hold {text} k")?)?;
    let mut knowing = BenchDevice::from_text(alloc, &format!(in alloc; "know {text} k")?)?;
    let name = KeyName::from_text(alloc, "k")?;
    let signature = signature_by(alloc, &mut holding, &name, "m")?;
    let judged = knowing.judge(&name, Alg::Jose("BENCH256"), b"m", &signature);
    answer(alloc, judged == Judged::Yes)
}

// One call of a device in memory, by a letter: `s` signs a message, `j` and `c` judge 32 zeros for it, by a
// name and by a number of an algorithm, `a` allows them. A signature is told by its length and its last byte.
fn call(
    alloc: Global,
    device: &mut MemoryDevice,
    name: &KeyName,
    letter: u8,
) -> Result<String, Fail> {
    match letter {
        b's' => signed(alloc, device, name),
        b'j' => verdict(
            alloc,
            device.judge(name, Alg::Jose("BENCH256"), b"m", &[0; 32]),
        ),
        b'c' => verdict(alloc, device.judge(name, Alg::Cose(-7), b"m", &[0; 32])),
        _ => allowed(alloc, device.allow(name, b"m", &[0; 32])),
    }
}

fn signed(alloc: Global, device: &mut MemoryDevice, name: &KeyName) -> Result<String, Fail> {
    if device.holds(name).is_none() {
        return Err("not held")?;
    }
    match device.sign(alloc, name, b"m") {
        Ok(bytes) => {
            let last = bytes.last().ok_or("no byte")?;
            Ok(format!(in alloc; "{}.{last}", bytes.len())?)
        }
        Err(SignError::Failed) => Ok(String::from_str(alloc, "Failed")?),
        Err(error) => Err(error)?,
    }
}

fn verdict(alloc: Global, judged: Judged) -> Result<String, Fail> {
    Ok(format!(in alloc; "{judged:?}")?)
}

fn allowed(alloc: Global, done: Result<(), NoMemory>) -> Result<String, Fail> {
    done?;
    Ok(String::from_str(alloc, "allowed")?)
}

// What a device in memory answers to these calls, and how many it has on record. The call of the number
// before the colon is made a fault.
pub fn memory(alloc: Global, text: &str) -> Result<String, Fail> {
    let (failing, letters) = text.split_once(':').ok_or("no colon")?;
    let mut device = MemoryDevice::new(alloc, &[KeyName::from_text(alloc, "k")?])?;
    if let Ok(number) = failing.parse::<u64>() {
        device.fail_at(number)?;
    }
    let name = KeyName::from_text(alloc, "k")?;
    let mut told = String::new(alloc);
    for letter in letters.as_bytes() {
        told.push_str(&call(alloc, &mut device, &name, *letter)?)?;
        told.push(' ')?;
    }
    let record = device.asked().ok_or("no record")?;
    Ok(format!(in alloc; "{told}{}", record.len())?)
}

// A secret of 32 bytes is 64 lower-case digits. A name is all after the second blank, and is not empty.
#[test]
fn reads_keys(rt: HostRuntime) -> Result<(), Fail> {
    let zeros = "0".repeat(rt.alloc(), 63)?;
    assert!(rt; are_keys(rt.alloc(), &zeros)?);
    Ok(())
}

fn are_keys(alloc: Global, zeros: &str) -> Result<bool, Fail> {
    let rows = [
        ("", "none"),
        ("x", "line 1"),
        ("\n", "line 1"),
        ("hold 0Zk k", "line 1"),
        ("hold 0Z k", "Bench256"),
        ("hold aZ k\n", "Bench256"),
        ("know 0Z k", "none"),
        ("hold 0Z k k", "none"),
        ("hold 0Z k\n\n", "line 2"),
        ("hold 0Z k\r\n", "none"),
        ("hold 0Z ", "line 1"),
        ("hold 0Z", "line 1"),
        ("hold  0Z k", "line 1"),
        ("Hold 0Z k", "line 1"),
        ("keep 0Z k", "line 1"),
        ("hold Z k", "line 1"),
        ("hold AZ k", "line 1"),
        ("hold 00Z k", "line 1"),
        ("know 0Z a\nhold 0Z k\nknow 0Z b", "Bench256"),
        ("hold 0Z k\nknow aZ k", "line 2"),
        ("hold 0Z a\nhold 0Z k\nhold 0Z a\nx", "line 3"),
    ];
    for (text, wanted) in rows {
        if !is_read(alloc, text, zeros, wanted)? {
            return Ok(false);
        }
    }
    Ok(true)
}

// A `Z` in the row stands for 63 zeros.
fn is_read(alloc: Global, row: &str, zeros: &str, wanted: &str) -> Result<bool, Fail> {
    let text = row.replace(alloc, "Z", zeros)?;
    let read = keys(alloc, &text)?;
    let filed = keys_file(alloc, &text)?;
    Ok(read.as_str() == wanted && filed.as_str() == wanted)
}

#[test]
fn signs_and_judges(rt: HostRuntime) -> Result<(), Fail> {
    let rows = [
        (
            Call::BenchSignature,
            "6162636462636465636465666465666765666768666768696768696a68696a6b ijkljklmklmnlmnomnopnopq",
            "248d6a61d20638b8e5c026930c3e6039a33ce45964ff2167f6ecedd419db06c1 Yes Yes No",
        ),
        (
            Call::KnownKey,
            "0101010101010101010101010101010101010101010101010101010101010101",
            "yes",
        ),
        (Call::MemoryDevice, ":jsjc", "No 32.0 Yes Yes 4"),
        (Call::MemoryDevice, ":sss", "32.0 32.1 32.2 3"),
        (Call::MemoryDevice, ":jajc", "No allowed Yes Yes 3"),
        (Call::MemoryDevice, "0:sj", "Failed No 2"),
        (Call::MemoryDevice, "1:sjj", "32.0 Failed Yes 3"),
        (Call::MemoryDevice, "2:sjss", "32.0 Yes Failed 32.1 4"),
    ];
    assert!(rt; are_told(rt.alloc(), &rows)?);
    Ok(())
}

// There is room for 1,048,576 bytes and 256 keys.
#[test]
fn limits_of_keys(rt: HostRuntime) -> Result<(), Fail> {
    assert!(rt; is_file(rt.alloc(), b"\xff", "line 1")?);
    assert!(rt; is_long(rt.alloc(), 1_048_576, "line 1")?);
    assert!(rt; is_long(rt.alloc(), 1_048_577, "too long")?);
    assert!(rt; is_many(rt.alloc(), 256, "none")?);
    assert!(rt; is_many(rt.alloc(), 257, "line 257")?);
    assert!(rt; is_missing(rt.alloc())?);
    Ok(())
}

fn is_file(alloc: Global, bytes: &[u8], wanted: &str) -> Result<bool, Fail> {
    let read = file(alloc, bytes)?;
    Ok(read.as_str() == wanted)
}

fn is_long(alloc: Global, length: usize, wanted: &str) -> Result<bool, Fail> {
    let text = "x".repeat(alloc, length)?;
    is_file(alloc, text.as_bytes(), wanted)
}

fn is_many(alloc: Global, count: usize, wanted: &str) -> Result<bool, Fail> {
    let zeros = "0".repeat(alloc, 64)?;
    let mut text = String::new(alloc);
    for number in 0..count {
        text.push_str(&format!(in alloc; "know {zeros} {number}\n")?)?;
    }
    is_file(alloc, text.as_bytes(), wanted)
}

fn is_missing(alloc: Global) -> Result<bool, Fail> {
    let read = from_store(alloc, &mut MemoryStore::new(alloc))?;
    Ok(read.as_str() == "read fault")
}
