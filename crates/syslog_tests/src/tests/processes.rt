//! Process ids, printed, compared and copied.
use super::checks::check;
use super::pieces::{has_equal_copy, is_name};
use super::rows::{answer_of, left_of, text_of};
use std::alloc::Global;
use std::process::Abort;
use syslog_pieces::procid::ProcId;
use syslog_text::as_str::AsStr;

// The second cell of a row is the process id: `pid` and a number, or `name` and a name.
fn reads_as_process<S: AsStr>(row: &str, procid: &ProcId<S>) -> bool {
    match (procid, answer_of(row).unwrap_or("").split_once(' ')) {
        (ProcId::PID(number), Some(("pid", want))) => want.parse() == Ok(*number),
        (ProcId::Name(name), Some(("name", want))) => name.as_str() == want,
        _ => false,
    }
}

fn prints_as<S: AsStr>(alloc: Global, procid: &ProcId<S>, want: &str) -> bool {
    match format!(in alloc; "{procid}") {
        Ok(printed) => printed.as_str() == want,
        Err(_) => false,
    }
}

fn prints_an_owned_name(alloc: Global, text: &str) -> bool {
    match String::from_str(alloc, text) {
        Ok(name) => {
            let owned = ProcId::Name(name);
            is_name(&owned, text) && prints_as(alloc, &owned, text)
        }
        Err(_) => false,
    }
}

#[test]
fn prints_the_name(rt: HostRuntime) {
    for text in &["", "x:y", "\u{663}", "größe"] {
        check(&rt, prints_as(rt.alloc(), &ProcId::Name(*text), text), text);
        check(&rt, prints_an_owned_name(rt.alloc(), text), text);
    }
}

#[test]
fn prints_the_number_of_an_owner(rt: HostRuntime) {
    let row = "-2147483648¦pid -2147483648";
    let least: ProcId<String> = ProcId::PID(i32::MIN);
    check(&rt, reads_as_process(row, &least), row);
    check(&rt, prints_as(rt.alloc(), &least, text_of(row)), row);
}

fn differs(one: &ProcId<&str>, other: &ProcId<&str>) -> bool {
    *one != *other && !(*one == *other)
}

// The first two texts of a row are read as one process id, and the third as another.
fn compares(row: &str) -> bool {
    let one = ProcId::from(text_of(row));
    let same = ProcId::from(answer_of(row).unwrap_or(""));
    one == same && !(one != same) && differs(&one, &ProcId::from(left_of(row)))
}

#[test]
fn compares_numbers_and_names(rt: HostRuntime) {
    for row in &["5¦+005¦6", "x:y¦x:y¦x:z", "¦¦x", "größe¦größe¦große"] {
        check(&rt, compares(row), row);
    }
    // A number is not the name that prints so.
    let (number, name) = (ProcId::PID(5), ProcId::Name("5"));
    check(&rt, differs(&number, &name), "a number and a name");
    check(&rt, differs(&name, &number), "a name and a number");
}

// Two copies of the row's process id, the second made of the first, which own their names.
fn has_owned_copies(alloc: Global, procid: &ProcId<&str>, row: &str) -> bool {
    let Ok(owned) = procid.to_owned_text(alloc) else {
        return false;
    };
    let Ok(again) = owned.try_clone(alloc) else {
        return false;
    };
    reads_as_process(row, &owned) && prints_as(alloc, &owned, text_of(row)) && again == owned
}

// The process id of the row prints as its text, and so do its copies.
fn has_copies(alloc: Global, row: &str) -> bool {
    let procid = ProcId::from(text_of(row));
    prints_as(alloc, &procid, text_of(row))
        && has_equal_copy(alloc, &procid)
        && has_owned_copies(alloc, &procid, row)
}

#[test]
fn copies_a_number_and_a_name(rt: HostRuntime) {
    for row in &[
        "323¦pid 323",
        "-2147483648¦pid -2147483648",
        "x:y¦name x:y",
        "¦name ",
        "größe¦name größe",
    ] {
        check(&rt, has_copies(rt.alloc(), row), row);
    }
}
