//! What the value of an option may be.
ghost use Rattle.std.specs.Prelude.{◌≡◌};
ghost use Rattle.std.specs.List.{list_all};
ghost use Rattle.std.specs.Char.{is_ascii_digit};
ghost use Rattle.mt_words.specs.Values.{is_decimal, is_odd, is_platform, is_platform_byte, is_value, number_of};

/// What the value of an option may be.
#[derive(Clone, Copy)]
pub enum ValueKind {
    /// The option has no value.
    Flag,
    /// A folder: any text that isn't empty and doesn't begin with `-`.
    Folder,
    /// A platform: a lower-case letter, and up to 15 more or digits.
    Platform,
    /// `true` or `false`.
    Truth,
    /// A number within bounds, in decimal digits without a leading zero.
    Number {
        /// The least such number.
        least: u64,
        /// The greatest.
        most: u64,
    },
}

/// Whether a word is no value: it is empty, or begins with `-`.
pub(crate) fn is_odd_word(word: &str) -> bool
    ensures odd { result ≡ is_odd word.now }
{
    match word.as_bytes() {
        [] => true,
        [first, ..] => *first == b'-',
    }
}

/// Whether each byte is a digit.
fn has_digits(text: &[u8]) -> bool
    ensures digits { result ≡ list_all is_ascii_digit text.now }
{
    text.iter().all(|byte| byte.is_ascii_digit())
}

/// Whether a text is `0`, or digits of which the first is not `0`.
#[tactic(auto, unfolding(crate::specs::Values::is_decimal))]
fn is_decimal_text(text: &[u8]) -> bool
    ensures decimal { result ≡ is_decimal text.now }
{
    if text.is_empty() {
        return false;
    }
    if text.len() > 1 && text[0] == b'0' {
        return false;
    }
    has_digits(text)
}

/// The number below 2^64 whose decimal digits, without a sign or a leading zero, are the text.
pub fn read_number(text: &str) -> Option<u64>
    ensures number { result ≡ number_of text.now }
{
    if is_decimal_text(text.as_bytes()) {
        text.parse().ok()
    } else {
        None
    }
}

/// Whether each byte is a lower-case letter or a digit.
fn has_platform_bytes(text: &[u8]) -> bool
    ensures bytes { result ≡ list_all is_platform_byte text.now }
{
    text.iter()
        .all(|byte| byte.is_ascii_lowercase() || byte.is_ascii_digit())
}

/// Whether a text is a lower-case letter and up to 15 more or digits.
#[tactic(auto, unfolding(crate::specs::Values::is_platform))]
fn is_platform_text(text: &[u8]) -> bool
    ensures platform { result ≡ is_platform text.now }
{
    match text {
        [] => false,
        [first, rest @ ..] => {
            first.is_ascii_lowercase() && rest.len() <= 15 && has_platform_bytes(rest)
        }
    }
}

/// Whether a text is a number from the least to the most.
#[tactic(auto, unfolding(crate::specs::Values::is_value))]
fn is_number_between(text: &str, least: u64, most: u64) -> bool
    ensures between { result ≡ is_value (ValueKind.Number least most) text.now }
{
    match read_number(text) {
        None => false,
        Some(number) => least <= number && number <= most,
    }
}

impl ValueKind {
    /// Whether a text may be the value of an option of this kind.
    #[tactic(auto, unfolding(crate::specs::Values::is_value))]
    pub(crate) fn accepts(self, text: &str) -> bool
        ensures value { result ≡ is_value self text.now }
    {
        match self {
            ValueKind::Flag => false,
            ValueKind::Folder => !is_odd_word(text),
            ValueKind::Platform => is_platform_text(text.as_bytes()),
            ValueKind::Truth => text == "true" || text == "false",
            ValueKind::Number { least, most } => is_number_between(text, least, most),
        }
    }
}
