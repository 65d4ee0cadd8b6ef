//! The usage line and the help of the program.

/// How the program is called, in one line.
pub const USAGE: &str =
    "usage: syslog_json [OPTION].. [--] YEAR[-MONTH[-DAY]], or --help, or --version\n";

/// How the program is called, and what it does.
pub const HELP: &str =
    "usage: syslog_json [OPTION].. [--] YEAR[-MONTH[-DAY]], or --help, or --version

Reads lines of syslog from standard input, and writes each as one JSON object
on one line to standard output. What a message lacks has no key:
  protocol, version, dialect, facility, facility_code, severity,
  severity_code, timestamp, hostname, appname, procid, msgid,
  structured_data, unparsed_structured_data, message
A line that is no message is its \"message\", with \"refused\": true. A line that
is not UTF-8 is read with U+FFFD for what is not, and has \"invalid_utf8\": true.
  YEAR             the year of dates that show none: one to four digits
  YEAR-MONTH       the same, and the month that it is now, two digits: in
                   January a date of December is of the year before
  YEAR-MONTH-DAY   the day that it is now: such a date is of the last year in
                   which it is that day, the day after or an earlier one
Options, in any order, each at most once:
  --csv            writes a table of CSV: a header, and each object as a row, with
                   an empty cell for a key that it lacks
  --offset OFFSET  the zone of dates that show none, +HH:MM or -HH:MM; it is
                   UTC without this and --zone
  --zone RULE      the same, in place of --offset, by a POSIX rule, as
                   CET-1CEST,M3.5.0,M10.5.0/3
  --raw            adds each message's line, as it came, as \"raw\"
  --latin1         reads a line that is not UTF-8 as ISO 8859-1; it has no
                   \"invalid_utf8\"
  --no-dialects    reads no line in the form of a sender that follows neither
                   RFC 5424 nor RFC 3164
  --nul            frames end in NUL, and not in a line feed
  --octet-counted  frames have octet counts (RFC 6587), or end in a line feed
  --max-line BYTES a longer line is refused, 67108864 where this is left out
  --severity NAME  writes only messages of that severity, or a worse one: emerg,
                   alert, crit, err, warning, notice, info or debug
  --host NAME      writes only messages of that host
  --app NAME       writes only messages of that app name
  --               may come before YEAR
  -h, --help       this text
  --version        the name and the version of this program

How many lines are no messages, and how many have U+FFFD, is written to standard
error at the end. These are counts of all lines, whatever messages are chosen.

Status:
  0  each line is a message, and none has U+FFFD for what is not UTF-8
  1  some lines are no messages, or have U+FFFD
  2  wrong arguments; or a read or a write failed, or memory ran out
";
