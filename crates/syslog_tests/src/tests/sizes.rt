//! A value with many escapes: no clause refuses a body that claims want of memory for it.
use super::checks::check;
use super::reading::read;
use syslog_loose::Variant;

/// A value of 100 KB, three escapes in each eight bytes.
#[test]
fn removes_many_escapes(rt: HostRuntime) {
    let alloc = rt.alloc();
    let value = "ab\\\"\\\\\\]"
        .repeat(alloc, 12_500)
        .expect(&rt, "no memory");
    let plain = "ab\"\\]".repeat(alloc, 12_500).expect(&rt, "no memory");
    check(&rt, value.len() == 100_000, "the length of the value");
    let text = format!(in alloc; "1 - - - - - [e k=\"{value}\"] x").expect(&rt, "no memory");
    let message = read(alloc, text.as_str(), Variant::Either).expect(&rt, "no message");
    let mut items = 0;
    for element in &message.structured_data {
        for item in element.params(alloc) {
            let (name, value) = item.expect(&rt, "no memory for a value");
            check(
                &rt,
                *name == "k" && value.as_str() == plain.as_str(),
                "a plain value",
            );
            items = 1;
        }
    }
    check(&rt, items == 1, "no parameter");
}
