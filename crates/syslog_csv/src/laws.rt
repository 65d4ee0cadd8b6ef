//! Laws of the definition of records, which is RFC 4180's: each function does nothing, and its contract is the law.
ghost use Rattle.std.specs.Prelude.{◌≡◌, ◌≢◌, ◌++◌, ◌∷◌, [], List, ℕ};
ghost use Rattle.std.specs.List.{AllByRecursion, flat_map};
ghost use Rattle.syslog_csv.specs.Records.{AreRecords, record_text};

/// A text is divided into records, each with CR LF after it, in at most one way.
pub fn records_are_divided_once()
    ensures { (text : List ℕ) (records others : List (List (List ℕ))) → AreRecords text records
        → AreRecords text others → others ≡ records }
{}

/// Records that are written one after the other, each with CR LF after it, are read back as these records.
pub fn written_records_are_read_back()
    ensures { (records : List (List (List ℕ))) → AllByRecursion (λ fields. fields ≢ []) records
        → AreRecords (flat_map (λ fields. record_text fields ++ (13 ∷ 10 ∷ [])) records) records }
{}
