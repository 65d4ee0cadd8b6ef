//! Decimal digits as bytes of ASCII.
ghost use Rattle.std.specs.Prelude.{◌≡◌, ◌<◌, ◌+◌};
ghost use Rattle.syslog_text.specs.Words.{AllByRecursion, pad3};
ghost use Rattle.syslog_text.specs.Text.Digits.{pad2};

/// Returns the ASCII byte of a digit from 0 to 9.
#[inline(always)]
pub fn ascii_digit(n: u32) -> u8
    requires { n < 10 }
    ensures { result ≡ 48 + n }
{
    b'0' + n as u8
}

// The two digits of each number below 100, so that no number is divided for them.
static PAIRS: [u8; 200] =
    *b"000102030405060708091011121314151617181920212223242526272829303132333435363738394041\
    42434445464748495051525354555657585960616263646566676869707172737475767778798081828384858687888990919293949596979899";

/// Returns the two digits of a number below 100.
#[tactic(auto, using(crate::proofs::TextLemmas::Words::pairs_at))]
#[inline(always)]
pub fn two_digits(n: u32) -> [u8; 2]
    requires { n < 100 }
    ensures ascii { AllByRecursion (λ b. b < 128) result }
    ensures text { result ≡ pad2 n }
{
    let at = 2 * n as usize;
    [PAIRS[at], PAIRS[at + 1]]
}

/// Returns the three digits of a number below 1000.
#[inline(always)]
pub fn three_digits(n: u32) -> [u8; 3]
    requires { n < 1_000 }
    ensures ascii { AllByRecursion (λ b. b < 128) result }
    ensures text { result ≡ pad3 n }
{
    let [t, o] = two_digits(n % 100);
    [ascii_digit(n / 100), t, o]
}
