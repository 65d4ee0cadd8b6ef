//! What the programs' arguments have in common.
ghost use Rattle.std.specs.Prelude.{◌≡◌, ◌↔◌, ◌∷◌, [], IsTrue, MatchOption, ℤ, map, pos};
ghost use Rattle.std.specs.Str.Parse.{digits_value};
ghost use Rattle.syslog_command_line.specs.Arguments.{AreYearWords, IsYear};

/// Returns the year, from 0 to 9999, that a text of one to four ASCII digits writes; none for any other text.
pub fn read_year(text: &str) -> Option<i32>
    ensures { MatchOption result (¬ (IsYear text.now))
        (λ year. IsYear text.now × (year ≡ pos (digits_value 10 text.now))) }
{
    if !(1..=4).contains(&text.len()) || !text.bytes().all(|byte| byte.is_ascii_digit()) {
        return None;
    }
    text.parse::<i32>().ok()
}

/// Returns the year that the words of a command line write, if they are one word, or `--` and one word; none for all
/// others.
pub fn read_year_words(args: &[&str]) -> Option<i32>
    ensures { MatchOption result ((year : ℤ) → ¬ (AreYearWords (map (λ arg. arg.now) args.now) year))
        (λ year. AreYearWords (map (λ arg. arg.now) args.now) year) }
{
    match args {
        [year] => read_year(year),
        [word, year] if *word == "--" => read_year(year),
        _ => None,
    }
}

/// Returns whether `wanted` is the only word of the command line.
#[tactic(auto, using(crate::proofs::ArgumentLemmas::word_alone))]
pub fn is_alone(args: &[&str], wanted: &str) -> bool
    ensures { IsTrue result ↔ (map (λ arg. arg.now) args.now ≡ wanted.now ∷ []) }
{
    match args {
        [word] => *word == wanted,
        _ => false,
    }
}
