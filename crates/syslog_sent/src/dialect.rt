//! The dialects, and their names and numbers.
ghost use Rattle.std.specs.Prelude.{◌≡◌, MatchOption};
ghost use Rattle.syslog_sent.specs.Dialect.{dialect_name, dialect_number};
ghost use Rattle.syslog_sent.specs.declared.dialect.Dialect.{Dialect as AnyDialect};

/// A dialect: a form in which some senders write, other than RFC 5424 and RFC 3164 as the port reads them.
#[derive(Clone, Copy, Debug)]
pub enum Dialect {
    /// A priority and a text that shows no date, as MikroTik's routers write.
    PriorityAlone = 1,
    /// A month date that a fraction, a zone or a year follows.
    BsdDate = 20,
    /// A date that is nearly one of RFC 3339.
    NearlyRfc3339 = 21,
    /// The day of the week before a date that is nearly one of RFC 3339, as `journalctl -o short-full` writes.
    Journal = 22,
    /// Cisco's IOS, IOS-XE and WLC.
    CiscoIos = 23,
    /// Cisco's NX-OS.
    CiscoNxOs = 24,
    /// Cisco's ASA and FTD.
    CiscoAsa = 25,
    /// Lines of Cisco's systems that show no date.
    CiscoUndated = 26,
    /// Container log files of Kubernetes.
    Container = 27,
    /// Cisco's IOS-XR.
    CiscoIosXr = 28,
    /// VMware ESXi from 8.0 on: the level and the priority after the date.
    Esxi = 33,
    /// Citrix NetScaler.
    NetScaler = 29,
    /// Seconds since 1970 instead of a date, as Cisco Meraki and `journalctl -o short-unix` write.
    UnixSeconds = 32,
    /// Sophos UTM.
    SophosUtm = 31,
    /// HP's ProCurve and ArubaOS-Switch.
    ProCurve = 30,
    /// What a daemon says of itself: that the last message was repeated, or that it is still running.
    Repeated = 40,
    /// The Common Event Format of ArcSight.
    Cef = 41,
    /// The Log Event Extended Format of QRadar.
    Leef = 42,
    /// Palo Alto's PAN-OS: values with commas between them.
    PaloAlto = 43,
    /// Pairs of a key and a value, as FortiGate, SonicWall and Sophos write.
    KeyValue = 44,
    /// An object of JSON after the host.
    Json = 45,
    /// Dell's iDRAC.
    Idrac = 46,
    /// A level of log4j after the host.
    Log4j = 47,
    /// Topics of RouterOS with commas between them, as MikroTik's routers write.
    MikroTik = 53,
    /// A message that begins with a bracket.
    Bracketed = 54,
    /// A message that begins with a date of its own, as programs of Java and VMware write.
    DatedMessage = 56,
    /// A line that AIX forwarded, as it writes `Message forwarded from`.
    Forwarded = 48,
    /// The severity before the program's name, as F5's BIG-IP writes.
    SeverityFirst = 49,
    /// The serial number and the time before the program's name, as WatchGuard's Fireboxes write.
    WatchGuard = 55,
    /// Model, address and version before the program's name, as UniFi access points write.
    UniFi = 57,
    /// A program's name of several words.
    SpacedName = 50,
    /// A message that begins with a number after the host, and so with no program's name.
    Untagged = 58,
    /// A program's line without a host.
    NoHost = 51,
    /// A header of RFC 5424 without structured data, as Heroku writes.
    Heroku = 52,
    /// A header nearly of RFC 5424: with a date that RFC 5424 does not have, without structured data, or with a tag.
    NearlyRfc5424 = 60,
    /// The seconds since the start in the place of a date, as journalctl's `short-monotonic` writes.
    Monotonic = 59,
    /// The columns of the unified log, as macOS's `log show` writes.
    UnifiedLog = 61,
    /// Check Point's element, whose names have a colon after them, in a header of RFC 5424.
    CheckPoint = 62,
}

impl Dialect {
    /// Returns the name of the dialect, as `priority-alone`, in ASCII.
    pub fn name(self) -> &'static str
        ensures { result.now ≡ dialect_name self }
    {
        match self {
            Dialect::PriorityAlone => "priority-alone",
            Dialect::BsdDate => "bsd-date",
            Dialect::NearlyRfc3339 => "nearly-rfc3339",
            Dialect::Journal => "journalctl-full",
            Dialect::CiscoIos => "cisco-ios",
            Dialect::CiscoNxOs => "cisco-nx-os",
            Dialect::CiscoAsa => "cisco-asa",
            Dialect::CiscoUndated => "cisco-undated",
            Dialect::Container => "container",
            Dialect::CiscoIosXr => "cisco-ios-xr",
            Dialect::Esxi => "esxi",
            Dialect::NetScaler => "netscaler",
            Dialect::ProCurve => "procurve",
            Dialect::Repeated => "repeated",
            Dialect::Cef => "cef",
            Dialect::Leef => "leef",
            Dialect::PaloAlto => "palo-alto",
            Dialect::KeyValue => "key-value",
            Dialect::Json => "json",
            Dialect::Idrac => "idrac",
            Dialect::Log4j => "log4j",
            Dialect::MikroTik => "mikrotik",
            Dialect::Bracketed => "bracketed",
            Dialect::DatedMessage => "dated-message",
            Dialect::UnixSeconds => "unix-seconds",
            Dialect::SophosUtm => "sophos-utm",
            Dialect::WatchGuard => "watchguard",
            Dialect::UniFi => "unifi",
            Dialect::Untagged => "untagged",
            Dialect::Forwarded => "forwarded",
            Dialect::SeverityFirst => "severity-first",
            Dialect::SpacedName => "spaced-name",
            Dialect::NoHost => "no-host",
            Dialect::Heroku => "heroku",
            Dialect::NearlyRfc5424 => "nearly-rfc5424",
            Dialect::Monotonic => "journalctl-monotonic",
            Dialect::UnifiedLog => "macos-log",
            Dialect::CheckPoint => "check-point",
        }
    }

    /// Returns the number of the dialect, from 1 on, which stays the same from one version to the next.
    pub fn number(self) -> u32
        ensures { result ≡ dialect_number self }
    {
        self as u32
    }

    /// Returns the dialect that has this number, if one has.
    pub fn from_number(number: u32) -> Option<Dialect>
        ensures { MatchOption result ((dialect : AnyDialect) → number ≡ dialect_number dialect → ⊥)
            (λ dialect. number ≡ dialect_number dialect) }
    {
        match number {
            1 => Some(Dialect::PriorityAlone),
            20 => Some(Dialect::BsdDate),
            21 => Some(Dialect::NearlyRfc3339),
            22 => Some(Dialect::Journal),
            23 => Some(Dialect::CiscoIos),
            24 => Some(Dialect::CiscoNxOs),
            25 => Some(Dialect::CiscoAsa),
            26 => Some(Dialect::CiscoUndated),
            27 => Some(Dialect::Container),
            28 => Some(Dialect::CiscoIosXr),
            29 => Some(Dialect::NetScaler),
            30 => Some(Dialect::ProCurve),
            40 => Some(Dialect::Repeated),
            41 => Some(Dialect::Cef),
            42 => Some(Dialect::Leef),
            43 => Some(Dialect::PaloAlto),
            44 => Some(Dialect::KeyValue),
            45 => Some(Dialect::Json),
            46 => Some(Dialect::Idrac),
            47 => Some(Dialect::Log4j),
            53 => Some(Dialect::MikroTik),
            54 => Some(Dialect::Bracketed),
            56 => Some(Dialect::DatedMessage),
            31 => Some(Dialect::SophosUtm),
            32 => Some(Dialect::UnixSeconds),
            33 => Some(Dialect::Esxi),
            55 => Some(Dialect::WatchGuard),
            57 => Some(Dialect::UniFi),
            58 => Some(Dialect::Untagged),
            48 => Some(Dialect::Forwarded),
            49 => Some(Dialect::SeverityFirst),
            50 => Some(Dialect::SpacedName),
            51 => Some(Dialect::NoHost),
            52 => Some(Dialect::Heroku),
            60 => Some(Dialect::NearlyRfc5424),
            59 => Some(Dialect::Monotonic),
            61 => Some(Dialect::UnifiedLog),
            62 => Some(Dialect::CheckPoint),
            _ => None,
        }
    }
}
