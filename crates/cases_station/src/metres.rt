// Mileages, read and written.
use plan_core::Micro;
use rail_mileage::{read_metres, write_metres};
use std::alloc::Global;
use std::test::Fail;

/// A text, and its number of micrometres where it is one.
static READ: [(&str, Option<i64>); 26] = [
    ("-0.5", Some(-500_000)),
    ("+12.", Some(12_000_000)),
    (" 7 ", Some(7_000_000)),
    ("\t\r\n.5\n", Some(500_000)),
    ("-0", Some(0)),
    ("0.000001", Some(1)),
    ("600.000000", Some(600_000_000)),
    ("999999999.999999", Some(999_999_999_999_999)),
    ("-000000001.000001", Some(-1_000_001)),
    ("1000000000.000000", None),
    ("-9223372036854.775808", None),
    ("", None),
    (" ", None),
    (".", None),
    ("+", None),
    ("+-1", None),
    ("- 1", None),
    ("1 2", None),
    ("1e3", None),
    ("1,5", None),
    ("1.5.", None),
    ("1234567890", None),
    ("0000000001", None),
    ("1.2345678", None),
    ("1.2000000", None),
    ("\u{a0}1", None),
];

/// The micrometres that are read from a text.
fn read_from(text: &str) -> Option<i64> {
    match read_metres(text.as_bytes()) {
        Some(mileage) => Some(mileage.0),
        None => None,
    }
}

fn read_all() -> Result<(), Fail> {
    for (text, number) in &READ {
        if read_from(text) != *number {
            return Err(Fail::new(*text));
        }
    }
    Ok(())
}

#[test]
fn metres_are_read_as_micrometres(_rt: HostRuntime) -> Result<(), Fail> {
    read_all()
}

/// Micrometres, and the text that is written for them.
static WRITTEN: [(i64, &str); 8] = [
    (0, "at 0.000000"),
    (1, "at 0.000001"),
    (-500_000, "at -0.500000"),
    (600_000_000, "at 600.000000"),
    (-999_999_999_999_999, "at -999999999.999999"),
    (1_000_000_000_000_000, "at 1000000000.000000"),
    (i64::MAX, "at 9223372036854.775807"),
    (i64::MIN, "at -9223372036854.775808"),
];

/// What is written of a mileage behind other bytes.
fn written(alloc: Global, number: i64) -> Result<Vec<u8>, Fail> {
    let mut line = Vec::from_slice(alloc, b"at ")?;
    write_metres(alloc, Micro(number), &mut line)?;
    Ok(line)
}

fn write_all(alloc: Global) -> Result<(), Fail> {
    for (number, want) in &WRITTEN {
        if written(alloc, *number)?.as_slice() != want.as_bytes() {
            return Err(Fail::new(*want));
        }
    }
    Ok(())
}

#[test]
fn mileages_are_written_with_six_digits(rt: HostRuntime) -> Result<(), Fail> {
    write_all(rt.alloc())
}
