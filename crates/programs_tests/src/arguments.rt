// The words of a program, and its exit statuses.
use outside::{Status, words};
use std::alloc::Global;
use std::io::{self, ErrorKind};
use std::test::Fail;

// Whether a program with these arguments has all but the first for its words.
fn are_words(alloc: Global, row: &[&str]) -> Result<bool, Fail> {
    let mut arguments = Vec::new(alloc);
    for argument in row {
        arguments.push(String::from_str(alloc, argument)?)?;
    }
    let words = words(alloc, Ok(arguments.into_iter()))?;
    if words.len() != row.len().saturating_sub(1) {
        return Ok(false);
    }
    for (word, wanted) in words.iter().zip(row.iter().skip(1)) {
        if word.as_str() != *wanted {
            return Ok(false);
        }
    }
    Ok(true)
}

#[test]
fn words_of_programs(rt: HostRuntime) -> Result<(), Fail> {
    let alloc = rt.alloc();
    let none: [&str; 0] = [];
    assert!(rt; are_words(alloc, &none)?);
    assert!(rt; are_words(alloc, &["vpwallet"])?);
    assert!(rt; are_words(alloc, &["vpwallet", "list"])?);
    assert!(rt; are_words(alloc, &["", "vpwallet", "", "a b", "vpwallet", ""])?);
    Ok(())
}

// How many words there are where the arguments cannot be had for this reason.
fn count_without(alloc: Global, kind: ErrorKind) -> Option<usize> {
    match words(alloc, Err(io::Error::from(kind))) {
        Ok(words) => Some(words.len()),
        Err(_) => None,
    }
}

#[test]
fn no_arguments(rt: HostRuntime) {
    assert!(rt; count_without(rt.alloc(), ErrorKind::InvalidData) == Some(0));
    assert!(rt; count_without(rt.alloc(), ErrorKind::OutOfMemory).is_none());
}

#[test]
fn statuses(rt: HostRuntime) {
    for (status, code) in [
        (Status::Done, 0),
        (Status::Usage, 2),
        (Status::RequestRefused, 3),
        (Status::NoOption, 5),
        (Status::ReadFault, 6),
        (Status::WriteFault, 7),
        (Status::DeviceFault, 8),
        (Status::FileRefused, 12),
        (Status::TooLong, 14),
        (Status::NoMemory, 15),
        (Status::NotOne, 17),
        (Status::KeyMissing, 18),
        (Status::SpecRefused, 18),
    ] {
        assert!(rt; status.code() == code);
    }
}
