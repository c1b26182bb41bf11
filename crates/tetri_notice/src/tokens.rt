// The tokens of a text in which no blank stands between them and nothing is escaped.
ghost use Rattle.std.specs.Prelude.{◌≡◌, ◌<◌, ◌≤◌, ◌++◌, ◌∷◌, ◌↔◌, ◌^◌, [], IfSome, IsTrue, MatchOption, decimal, length, min, take, true};
ghost use Rattle.std.specs.Char.{is_ascii_digit};
ghost use Rattle.std.specs.Fmt.{signed_decimal};
ghost use Rattle.std.specs.List.{list_all, prefix_len};
ghost use Rattle.std.specs.Str.Parse.{digits_value};
ghost use Rattle.json.specs.Lex.{tokens};
ghost use Rattle.json.specs.Run.{is_plain};
ghost use Rattle.json.specs.Token.{begin_object, end_object, key as key_token, number as number_token, string as string_token};
ghost use Rattle.tetri_notice.specs.Tokens.{IsBehindValue, IsSmall};

use std::marker::Model;

// Whether a text begins with these bytes. It stops at none, so that bytes that are known beforehand are compared many at once.
#[inline(always)]
fn begins_with(text: &[u8], front: &[u8]) -> bool
    ensures { IsTrue result ↔ (take (length front.now) text.now ≡ front.now) }
{
    if text.len() < front.len() {
        return false;
    }
    let mut same = true;
    for i in 0..front.len() {
        same &= text[i] == front[i];
    }
    same
}

// What follows this front of a text, if the text has it.
#[inline(always)]
fn behind<'v>(text: &'v str, front: &str) -> Option<&'v str>
    ensures { IfSome result (λ rest. text.now ≡ front.now ++ rest.now) }
{
    if !begins_with(text.as_bytes(), front.as_bytes()) {
        return None;
    }
    let (_, rest) = text.split_at(front.len());
    Some(rest)
}

// What follows a name in quotes and a colon, if a text begins with them. The bytes are compared all at once.
#[inline(always)]
fn behind_named<'v>(text: &'v str, name: &str) -> Option<&'v str>
    ensures { IfSome result (λ rest. text.now ≡ 34 ∷ (name.now ++ 34 ∷ 58 ∷ rest.now)) }
{
    let bytes = text.as_bytes();
    let end = name.len() + 3;
    if bytes.len() < end {
        return None;
    }
    let opens = bytes[0] == b'"';
    let named = begins_with(&bytes[1..], name.as_bytes());
    let closes = bytes[end - 2] == b'"';
    let colon = bytes[end - 1] == b':';
    if !(opens & named & closes & colon) {
        return None;
    }
    let (_, rest) = text.split_at(end);
    Some(rest)
}

// Whether a comma or a closing brace comes first, as behind each value of an object.
#[inline(always)]
fn is_behind_value(text: &[u8]) -> bool
    ensures { IsTrue result ↔ IsBehindValue text.now }
{
    matches!(text, [b',' | b'}', ..])
}

// As many digits as are always a number of 64 bits.
const SHORT: usize = 18;

// The number that the first digits are, at most 18 of them, and how many they are.
#[inline(always)]
fn front_number(text: &[u8]) -> (u64, usize)
    ensures count { result.1 ≡ min (prefix_len is_ascii_digit text.now) 18 }
    ensures digits { list_all is_ascii_digit (take result.1 text.now) ≡ true }
    ensures value { result.0 ≡ digits_value 10 (take result.1 text.now) }
{
    let most = text.len().min(SHORT);
    let mut number = 0u64;
    let mut i = 0;
    while i < most && text[i].is_ascii_digit() {
        number = number * 10 + u64::from(text[i] - b'0');
        i += 1;
    }
    (number, i)
}

// How many bytes come first of which none ends or escapes anything in a string.
#[inline(always)]
fn count_plain(text: &[u8]) -> usize
    ensures { result ≡ prefix_len is_plain text.now }
{
    let mut i = 0;
    while i < text.len() && is_plain(text[i]) {
        i += 1;
    }
    i
}

#[inline(always)]
fn is_plain(byte: u8) -> bool
    ensures { result ≡ is_plain byte }
{
    byte != b'"' && byte != b'\\' && byte >= 32
}

// A whole number without a sign, below 10^18, and what follows it.
#[inline(always)]
fn whole(text: &str) -> Option<(u64, &str)>
    ensures { IfSome result (λ found. (found.0 < 10 ^ 18) × (text.now ≡ decimal found.0 ++ found.1.now)) }
{
    let bytes = text.as_bytes();
    let (number, count) = front_number(bytes);
    if count == 0 || (1 < count && bytes[0] == b'0') {
        return None;
    }
    let (_, rest) = text.split_at(count);
    Some((number, rest))
}

// The same with a minus before it, which 0 has not.
#[inline(always)]
fn integer(text: &str) -> Option<(i64, &str)>
    ensures { IfSome result (λ found. IsSmall found.0 × (text.now ≡ signed_decimal found.0 ++ found.1.now)) }
{
    let Some(behind) = behind(text, "-") else {
        let (number, rest) = whole(text)?;
        return Some((number as i64, rest));
    };
    let (number, rest) = whole(behind)?;
    if number == 0 {
        return None;
    }
    Some((-(number as i64), rest))
}

/// The tokens of a text, one after another, as `json::Reader` gives them, where no blank stands between them and nothing is escaped. What
/// gives nothing says nothing of the tokens.
#[derive(Drop)]
pub(crate) struct Tokens<'v> {
    rest: &'v str,
    is_behind_value: bool,
}

impl<'v> Model for Tokens<'v> {
    ghost use Rattle.std.specs.Prelude.{List};
    ghost use Rattle.json.specs.Token.{Token, tokens_code};
    ghost use Rattle.tetri_notice.specs.Tokens.{tokens_from};

    ghost Value = { List Token };

    ghost coded = { tokens_code };

    ghost view = { λ t. tokens_from t.is_behind_value t.rest.now };
}

impl<'v> Tokens<'v> {
    #[inline(always)]
    pub(crate) fn new(text: &'v str) -> Tokens<'v>
        ensures { result ≡ tokens text.now }
    {
        Tokens {
            rest: text,
            is_behind_value: false,
        }
    }

    /// The same tokens again, to be read apart from these.
    #[inline(always)]
    pub(crate) fn again(&self) -> Tokens<'v>
        ensures { result ≡ self.now }
    {
        Tokens {
            rest: self.rest,
            is_behind_value: self.is_behind_value,
        }
    }

    /// Passes the brace that opens an object.
    #[inline(always)]
    pub(crate) fn opens(&mut self) -> Option<()>
        ensures { IfSome result (λ _. self.old ≡ begin_object ∷ self.new) }
    {
        if self.is_behind_value {
            return None;
        }
        self.rest = behind(self.rest, "{")?;
        Some(())
    }

    /// Passes the brace that closes an object.
    #[inline(always)]
    pub(crate) fn closes(&mut self) -> Option<()>
        ensures { IfSome result (λ _. self.old ≡ end_object ∷ self.new) }
    {
        self.rest = behind(self.rest, "}")?;
        self.is_behind_value = true;
        Some(())
    }

    // What follows a key, if it comes next.
    #[inline(always)]
    fn behind_key(&self, key: &str) -> Option<&'v str>
        requires { list_all is_plain key.now ≡ true }
        ensures { IfSome result (λ rest. self.now ≡ key_token key.now ∷ tokens rest.now) }
    {
        let mut rest = self.rest;
        if self.is_behind_value {
            rest = behind(rest, ",")?;
        }
        behind_named(rest, key)
    }

    /// Passes a key in which nothing is escaped. Where it gives nothing, it stays.
    #[inline(always)]
    pub(crate) fn passes_key(&mut self, key: &str) -> Option<()>
        requires { list_all is_plain key.now ≡ true }
        ensures { MatchOption result (self.new ≡ self.old) (λ _. self.old ≡ key_token key.now ∷ self.new) }
    {
        let rest = self.behind_key(key)?;
        self.rest = rest;
        self.is_behind_value = false;
        Some(())
    }

    /// The number that comes next, if it is a whole one.
    #[inline(always)]
    pub(crate) fn number(&mut self) -> Option<i64>
        ensures small { IfSome result IsSmall }
        ensures next { IfSome result (λ z. self.old ≡ number_token (signed_decimal z) ∷ self.new) }
    {
        if self.is_behind_value {
            return None;
        }
        let (number, rest) = integer(self.rest)?;
        if !is_behind_value(rest.as_bytes()) {
            return None;
        }
        self.rest = rest;
        self.is_behind_value = true;
        Some(number)
    }

    /// The string that comes next.
    #[inline(always)]
    pub(crate) fn string(&mut self) -> Option<&'v str>
        ensures { IfSome result (λ s. self.old ≡ string_token s.now ∷ self.new) }
    {
        if self.is_behind_value {
            return None;
        }
        let begun = behind(self.rest, "\"")?;
        let (text, rest) = begun.split_at(count_plain(begun.as_bytes()));
        let rest = behind(rest, "\"")?;
        if !is_behind_value(rest.as_bytes()) {
            return None;
        }
        self.rest = rest;
        self.is_behind_value = true;
        Some(text)
    }

    /// Whether no token is left.
    #[inline(always)]
    pub(crate) fn is_empty(&self) -> bool
        ensures { IsTrue result → self.now ≡ [] }
    {
        self.rest.is_empty()
    }
}
