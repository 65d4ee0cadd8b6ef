//! The cut after a run of a class of characters: each class, at each place of texts of each length.
use super::checks::check;
use std::alloc::{AllocError, Global};
use std::process::Abort;
use syslog_text::text::{CharClass, first, run_end, split_run};

/// The longest text that is cut.
const LONGEST: usize = 70;

/// A class, and a text of a character of it and then of those that stop its runs.
type Cutting = (CharClass, &'static str);

/// Each class with characters that stop it.
const STOPS: [Cutting; 28] = [
    (CharClass::Digit, "7x/:"),
    (CharClass::Blank, " x\n\u{b}"),
    (CharClass::Visible, "v \t\u{b}\r"),
    (CharClass::Id, "i \u{c}]="),
    (CharClass::Name, " ]="),
    (CharClass::Unescaped, "]\\\""),
    (CharClass::Open, "[]"),
    (CharClass::Inert, "=\\\"]"),
    (CharClass::Bare, "\"\\"),
    (CharClass::Tag, "[ \t\u{c}:"),
    (CharClass::Label, "] \r:["),
    (CharClass::Printable, "~ \u{7f}\u{1f}\t"),
    (CharClass::SdName, "! =]\"\u{7f}"),
    // fillers or stops past ASCII
    (CharClass::Digit, "0\u{663}\u{3000}"),
    (CharClass::Blank, "\t\u{85}\u{2003}\u{3000}"),
    (CharClass::Visible, "v\u{85}\u{2003}\u{3000}"),
    (CharClass::Visible, "ü\u{85}\u{2003}\u{3000} "),
    (CharClass::Id, "\"\u{85}\u{2003}\u{3000}"),
    (CharClass::Name, "\u{2003}]="),
    (CharClass::Unescaped, "局\\\""),
    (CharClass::Open, "\u{85}]"),
    (CharClass::Inert, "ß\\\"]"),
    (CharClass::Tag, "ß\u{85}\u{2003}\u{3000}:"),
    (CharClass::Label, "\"\u{85}\u{2003}\u{a0}\u{3000}"),
    (CharClass::Id, "ü\u{85}\u{2003}\u{3000}]"),
    (CharClass::Bare, "ß\\"),
    (CharClass::Printable, "p\u{85}\u{2003}\u{3000}ü"),
    (CharClass::SdName, "s\u{85}\u{2003}\u{3000}ü"),
];

// The filler up to the longest length on both sides of the stop.
fn around(alloc: Global, filler: char, stop: char) -> Result<String, AllocError> {
    let mut text = String::new(alloc);
    for _ in 0..LONGEST {
        text.push(filler)?;
    }
    text.push(stop)?;
    for _ in 0..LONGEST {
        text.push(filler)?;
    }
    Ok(text)
}

fn part<'a>(rt: &impl Abort, text: &'a str, start: usize, end: usize) -> &'a str {
    text.get(start..end).expect(rt, "no such part")
}

fn is_cut(text: &str, class: CharClass, run: &str, rest: &str) -> bool {
    let (front, after) = split_run(text, class);
    front == run && after == rest && run_end(text, class) == run.len()
}

// Cuts each text of up to the longest length with the stop at each of its places, and each that has none.
fn check_each_place(rt: &impl Abort, class: CharClass, text: &str, filler: char, stop: char) {
    let width = filler.len_utf8();
    let middle = LONGEST * width;
    for before in 0..=LONGEST {
        let start = middle - before * width;
        let run = part(rt, text, start, middle);
        check(rt, is_cut(run, class, run, ""), run);
        for after in 0..LONGEST - before {
            let end = middle + stop.len_utf8() + after * width;
            let whole = part(rt, text, start, end);
            let rest = part(rt, text, middle, end);
            check(rt, is_cut(whole, class, run, rest), whole);
        }
    }
}

// The filler is the first character of the text, and the others stop its runs.
fn check_class(rt: &impl Abort, alloc: Global, class: CharClass, characters: &str) {
    let (filler, stops) = first(characters).expect(rt, "no filler");
    check(rt, class.has(filler), characters);
    for stop in stops.chars() {
        let text = around(alloc, filler, stop).expect(rt, "no memory");
        check(rt, !class.has(stop), text.as_str());
        check_each_place(rt, class, text.as_str(), filler, stop);
    }
}

#[test]
fn cuts_at_each_place(rt: HostRuntime) {
    for (class, characters) in &STOPS {
        check_class(&rt, rt.alloc(), *class, characters);
    }
}
