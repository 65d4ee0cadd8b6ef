//! The structs that a caller in C gets: numbers, and texts that point into the line.
//!
//! **Rule.** It is this project's own choice; `include/syslog_loose.h` declares it for C.

/// A text: a pointer to its first byte in the line, and its length in bytes. An absent one points nowhere.
#[repr(C)]
#[derive(Clone, Copy)]
pub struct Text<'a> {
    /// Its bytes, which are UTF-8.
    pub bytes: &'a [u8],
    /// 1, or 0 if the text is absent.
    pub present: u32,
}

/// An instant, and how far the clock that showed it is ahead of UTC. All numbers are 0 if it is absent.
#[repr(C)]
#[derive(Clone, Copy)]
pub struct Stamp {
    /// The whole seconds since 1970, rounded down.
    pub seconds: i64,
    /// The nanoseconds after these seconds, from 0 to 999,999,999.
    pub nanoseconds: i32,
    /// How many seconds the clock is ahead of UTC, from -93599 to 93599.
    pub offset: i32,
    /// 1, or 0 if the timestamp is absent.
    pub present: u32,
    /// 1 if the line shows a year, otherwise 0.
    pub shows_year: u32,
    /// 1 if the line shows an offset, otherwise 0.
    pub shows_offset: u32,
}

/// A process id: a number, a name, or neither.
#[repr(C)]
#[derive(Clone, Copy)]
pub struct Process<'a> {
    /// The name; absent if the process id is a number, or absent.
    pub name: Text<'a>,
    /// The number; 0 if the process id is not a number.
    pub number: i32,
    /// 1 if the process id is a number, otherwise 0.
    pub is_number: u32,
}

/// What a line says. Its texts point into the line.
#[repr(C)]
#[derive(Clone, Copy)]
pub struct Fields<'a> {
    /// The protocol: 3164 or 5424.
    pub protocol: u32,
    /// The version of RFC 5424, or 0 for RFC 3164.
    pub version: u32,
    /// The facility, from 0 to 23, or -1 if it is absent.
    pub facility: i32,
    /// The severity, from 0 to 7, or -1 if it is absent.
    pub severity: i32,
    /// The date and time of the line.
    pub timestamp: Stamp,
    /// The name of the sender's machine.
    pub host: Text<'a>,
    /// The app name; the tag of RFC 3164 without its process id.
    pub app: Text<'a>,
    /// The process id.
    pub process: Process<'a>,
    /// The message id; absent for RFC 3164.
    pub msgid: Text<'a>,
    /// The message part, which is never absent but may be empty.
    pub msg: Text<'a>,
    /// How many elements of structured data there are.
    pub elements: usize,
    /// How many parameters the elements have in all.
    pub params: usize,
    /// The number of the dialect that the line was read in, or 0 if it was read by a protocol.
    pub dialect: u32,
    /// The structured data from the first element on that is not strict; absent if each is strict.
    pub unparsed: Text<'a>,
}

/// What a line of a block says.
#[repr(C)]
#[derive(Clone, Copy)]
pub struct Row<'a> {
    /// The line, without its line feed.
    pub line: Text<'a>,
    /// The outcome of reading the line, as a number.
    pub outcome: u32,
    /// The fields of the line; zero and absent if the line is no message.
    pub fields: Fields<'a>,
}

/// An element of structured data: its id, and how many parameters it has.
#[repr(C)]
#[derive(Clone, Copy)]
pub struct Element<'a> {
    pub id: Text<'a>,
    /// How many parameters it has. They come in the array after those of the elements before it.
    pub params: usize,
}

/// A parameter of an element: its name, and its value as it is in the line, with its escapes.
#[repr(C)]
#[derive(Clone, Copy)]
pub struct Param<'a> {
    pub name: Text<'a>,
    pub value: Text<'a>,
}
