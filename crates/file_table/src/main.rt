//! Good and damaged files, one line a case: what the check, picking and writing answer.
#![tactic(auto)]

ghost use Rattle.std.specs.Prelude.{◌<◌, length};

mod samples_of;

use reception_file::{Refusal, Stored, check, pick, write};
use samples::{Complex, Phase, Sample};
use samples_of::{fill, put};
use std::fmt::Display;
use std::io;

/// What a table is made of beside its samples: the names, and the file's degree and count.
struct Case {
    name: &'static str,
    as_other: &'static str,
    degree: u8,
    count: u8,
    /// The part of sample 1 that is 32,767.
    largest: usize,
    /// Values that are not allowed, for the first part and for the last.
    first: i32,
    last: i32,
}

/// Ends a line with what the check answers.
fn say_check(rt: &HostRuntime, bytes: &[u8]) -> io::Result<()> {
    match check(bytes) {
        Ok(head) => {
            let kind = u8::from(head.kind);
            let degree = u8::from(head.degree);
            let count = head.count;
            println!(rt; ": kind {kind}, degree {degree}, count {count}")
        }
        Err(e) => println!(rt; ": {e}"),
    }
}

/// A line with what was to be written, and what writing answers.
fn say_write(
    rt: &HostRuntime,
    asked: &impl Display,
    answer: Result<usize, Refusal>,
) -> io::Result<()> {
    match answer {
        Ok(size) => println!(rt; "{asked}: {size} bytes"),
        Err(e) => println!(rt; "{asked}: {e}"),
    }
}

/// Ends a line with the check of a file in which these bytes are overwritten; the last of the bytes stands behind the file.
// stays: `8 < N` is one comparison of a const parameter; a type that said it would be longer than the clauses
fn say_changed<const N: usize>(
    rt: &HostRuntime,
    bytes: &[u8; N],
    place: usize,
    by: &[u8],
) -> io::Result<()>
    requires { 8 < N }
{
    let mut changed = *bytes;
    for (byte, new) in changed.iter_mut().skip(place).zip(by) {
        *byte = *new;
    }
    say_check(rt, &changed[..N - 1])
}

/// Every refusal of the check; the last of the bytes stands behind the file.
fn damage<const N: usize>(rt: &HostRuntime, name: &str, bytes: &[u8; N]) -> io::Result<()>
    requires { 8 < N }
{
    let size = N - 1;
    for cut in [0, 7, 8, size - 1, size, size + 1] {
        print!(rt; "{name}, {cut} bytes")?;
        say_check(rt, &bytes[..cut])?;
    }
    let wrong = [
        (0, 0x4A),
        (1, 0x56),
        (2, 0x51),
        (3, 1),
        (4, 0),
        (4, 2),
        (5, 0),
        (5, 3),
        (6, 4),
        (6, 8),
        (7, 0),
        (7, 17),
        (7, 16),
    ];
    for (place, value) in wrong {
        print!(rt; "{name}, byte {place} is {value}")?;
        say_changed(rt, bytes, place, &[value])?;
    }
    for place in [8, size - 2] {
        print!(rt; "{name}, a part of -32768 at {place}")?;
        say_changed(rt, bytes, place, &i16::MIN.to_be_bytes())?;
    }
    Ok(())
}

/// The refusals of writing that every kind has, and a file written.
fn writing<S: Stored>(
    rt: &HostRuntime,
    case: &Case,
    samples: &[S],
    bytes: &mut [u8],
) -> io::Result<()>
    requires { 8 < length bytes.old }
{
    let Case {
        name,
        degree,
        count,
        ..
    } = *case;
    let size = bytes.len() - 1;
    say_write(
        rt,
        &format_args!("{name}, degree 4"),
        write(4, count, samples, bytes),
    )?;
    say_write(
        rt,
        &format_args!("{name}, count 0"),
        write(degree, 0, samples, bytes),
    )?;
    say_write(
        rt,
        &format_args!("{name}, count 17"),
        write(degree, 17, samples, bytes),
    )?;
    say_write(
        rt,
        &format_args!("{name}, no samples"),
        write(degree, count, &samples[..0], bytes),
    )?;
    say_write(
        rt,
        &format_args!("{name}, a byte too few"),
        write(degree, count, samples, &mut bytes[..size - 1]),
    )?;
    say_write(
        rt,
        &format_args!("{name}, written"),
        write(degree, count, samples, bytes),
    )?;
    let behind = bytes[size];
    println!(rt; "{name}, the byte behind the file: {behind}")
}

/// A line with what picking answers, and whether the samples are those that were written.
fn say_pick<S: Stored + PartialEq>(
    rt: &HostRuntime,
    name: &str,
    file: &[u8],
    reception: usize,
    memory: &mut [S],
    samples: &[S],
) -> io::Result<()> {
    match pick(file, reception, memory) {
        Ok(degree) => {
            let first = reception.wrapping_mul(memory.len());
            let whole = samples
                .get(first..)
                .is_some_and(|rest| rest.starts_with(memory));
            println!(rt; "{name}, reception {reception}: degree {degree}, as written {whole}")
        }
        Err(e) => println!(rt; "{name}, reception {reception}: {e}"),
    }
}

/// Every refusal of picking, and each reception picked.
fn picking<S: Stored + PartialEq, O: Stored + PartialEq>(
    rt: &HostRuntime,
    case: &Case,
    file: &[u8],
    samples: &[S],
    memory: &mut [S],
    other: &mut [O],
) -> io::Result<()> {
    let name = case.name;
    for number in 0..=usize::from(case.count) {
        say_pick(rt, name, file, number, memory, samples)?;
    }
    say_pick(rt, name, file, usize::MAX, memory, samples)?;
    say_pick(rt, "no memory", file, 0, &mut memory[..0], samples)?;
    say_pick(rt, case.as_other, file, 0, other, &[])
}

/// All rows of one kind, of which picking as the other is one; the last of the bytes stands behind the file.
fn table<S: Stored + PartialEq, O: Stored + PartialEq, const N: usize>(
    rt: &HostRuntime,
    case: &Case,
    samples: &mut [S],
    bytes: &mut [u8; N],
    memory: &mut [S],
    other: &mut [O],
) -> io::Result<()>
    requires { 8 < N }
{
    let Case {
        name,
        degree,
        count,
        first,
        last,
        ..
    } = *case;
    fill(samples);
    put(samples.get_mut(1), case.largest, 32767);
    writing(rt, case, samples, bytes)?;
    damage(rt, name, bytes)?;
    picking(rt, case, &bytes[..N - 1], samples, memory, other)?;
    put(samples.first_mut(), 0, first);
    say_write(
        rt,
        &format_args!("{name}, first part {first}"),
        write(degree, count, samples, bytes),
    )?;
    put(samples.first_mut(), 0, 0);
    put(samples.last_mut(), S::parts(), last);
    say_write(
        rt,
        &format_args!("{name}, last part {last}"),
        write(degree, count, samples, bytes),
    )
}

const COMPLEX: Case = Case {
    name: "complex",
    as_other: "complex as phase",
    degree: 3,
    count: 3,
    largest: 1,
    first: 32768,
    last: -32768,
};

const PHASE: Case = Case {
    name: "phase",
    as_other: "phase as complex",
    degree: 5,
    count: 2,
    largest: 2,
    first: -32768,
    last: 32768,
};

fn main(rt: HostRuntime) -> io::Result<()> {
    table(
        &rt,
        &COMPLEX,
        &mut [Complex::zero(); 24],
        &mut [0xEE; 105],
        &mut [Complex::zero(); 8],
        &mut [Phase::zero(); 8],
    )?;
    table(
        &rt,
        &PHASE,
        &mut [Phase::zero(); 64],
        &mut [0xEE; 521],
        &mut [Phase::zero(); 32],
        &mut [Complex::zero(); 32],
    )
}
