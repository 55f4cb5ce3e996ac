// Document 01 §2: the tokens of a text, in working room that the caller lends.
// Each is three words: its kind's number, the place of its first byte, and a name's length or a number's number.
#![tactic(auto)]

ghost use Rattle.std.specs.Prelude.{◌≡◌, ℕ, ◌+◌, ◌*◌, ◌-◌, ◌≤◌, ◌<◌, [], ◌∷◌, true, false, length, get_or, take, drop, eqb, ltb};
ghost use Rattle.std.proofs.lemmas.List.Edits.{sets};
ghost use Rattle.word.specs.Choice.{pick};
ghost use Rattle.language.specs.Tokens.{is_blank, in_comment, is_letter, is_digit, in_name, same, span, find, words, or_name, decimal, name_at, number_at, as_sign, token_at, signs, begins, largest_number};
ghost use Rattle.tokens.specs.Kinds.{kind_of};
ghost use Rattle.tokens.specs.Numbers.{number_of_kind, number_in};
ghost use Rattle.tokens.specs.Seen.{MeansNumber, SpansBy, seen, seen_in, sign_in};
ghost use Rattle.tokens.specs.Told.{Told};

use crate::kinds::Kind;
use std::error::Error;
use std::fmt;
use word::lists::item_or;

pub mod kinds; // the kinds of tokens

// The limits of document 01 §2.
pub const LONGEST_TEXT: usize = 65536;

pub const LONGEST_NAME: usize = 32;

pub const LARGEST_NUMBER: u64 = 2147483647;

// Words for a token, and words of working room: enough for a text with a token at every byte.
pub const TOKEN_WORDS: usize = 3;

pub const TOKEN_ROOM: usize = TOKEN_WORDS * LONGEST_TEXT;

// Why a text gives no tokens.
#[derive(Clone, Copy, Debug, PartialEq, Eq, Hash)]
pub enum Unread {
    // The text is unreadable, with the place of the fault.
    Unreadable(usize),
    // The room is too short.
    NoRoom,
}

impl fmt::Display for Unread {
    fn fmt<W: fmt::Write>(&self, f: &mut fmt::Formatter<W>) -> fmt::Result {
        match self {
            Unread::Unreadable(place) => write!(f, "unreadable at byte {place}"),
            Unread::NoRoom => write!(f, "the room is too short"),
        }
    }
}

impl Error for Unread {}

// A token that stands in the text: its kind, its value and its number of bytes.
#[derive(Clone, Copy, Debug, PartialEq, Eq, Hash)]
struct Token {
    kind: Kind,
    value: u32,
    size: usize,
}

// Whether b is a space, a tab, a line feed or a carriage return.
#[tactic(auto, using(std::proofs::lemmas::Bool::Decides::nat_tests), unfolding(language::specs::Tokens::is_blank))]
fn is_blank(b: u8) -> bool
    ensures { result ≡ is_blank b }
{
    b == b' ' || b == b'\t' || b == b'\n' || b == b'\r'
}

// Whether b may stand in a comment: the allowed bytes but the line feed.
#[tactic(auto, using(std::proofs::lemmas::Bool::Decides::nat_tests), unfolding(language::specs::Tokens::in_comment, language::specs::Tokens::allowed))]
fn in_comment(b: u8) -> bool
    ensures { result ≡ in_comment b }
{
    b == b'\t' || b == b'\r' || (b' ' <= b && b <= b'~')
}

// Whether b is a lower-case letter or `_`.
#[tactic(auto, using(std::proofs::lemmas::Bool::Decides::nat_tests), unfolding(language::specs::Tokens::is_letter))]
fn is_letter(b: u8) -> bool
    ensures { result ≡ is_letter b }
{
    b == b'_' || b.is_ascii_lowercase()
}

// Whether b is a decimal digit.
#[tactic(auto, using(std::proofs::lemmas::Bool::Decides::nat_tests), unfolding(language::specs::Tokens::is_digit))]
fn is_digit(b: u8) -> bool
    ensures { result ≡ is_digit b }
{
    b.is_ascii_digit()
}

// Whether b may stand in a name after its first character.
#[tactic(auto, using(std::proofs::lemmas::Bool::Decides::nat_tests), unfolding(language::specs::Tokens::in_name))]
fn in_name(b: u8) -> bool
    ensures { result ≡ in_name b }
{
    is_letter(b) || is_digit(b)
}

// The kind of a word if the name is spelt like it, else the other.
fn word_or(name: &[u8], word: &[u8], kind: Kind, other: Kind) -> Kind
    ensures { number_of_kind result ≡ pick (same name.now word.now) (number_of_kind kind) (number_of_kind other) }
{
    if name == word { kind } else { other }
}

// The kind of what is spelt like a name, a name or one of the twelve words: the first letter leaves one or two words to compare with.
// `match` on the whole spelling is no plainer to prove: each of its bytes is an arm of its own, with a default of its own.
fn word_kind(name: &[u8]) -> Kind
    requires { 0 < length name.now }
    ensures { number_of_kind result ≡ kind_of (or_name name.now (find (same name.now) words)) }
{
    let b = name[0];
    match b {
        b'b' => word_or(name, b"bool", Kind::Bool, Kind::Name),
        b'e' => {
            let emit_or_name = word_or(name, b"emit", Kind::Emit, Kind::Name);
            word_or(name, b"else", Kind::Else, emit_or_name)
        }
        b'f' => {
            let false_or_name = word_or(name, b"false", Kind::False, Kind::Name);
            word_or(name, b"fn", Kind::Fn, false_or_name)
        }
        b'i' => {
            let int_or_name = word_or(name, b"int", Kind::Int, Kind::Name);
            word_or(name, b"if", Kind::If, int_or_name)
        }
        b'l' => word_or(name, b"let", Kind::Let, Kind::Name),
        b'r' => word_or(name, b"return", Kind::Return, Kind::Name),
        b't' => word_or(name, b"true", Kind::True, Kind::Name),
        b'v' => word_or(name, b"var", Kind::Var, Kind::Name),
        b'w' => word_or(name, b"while", Kind::While, Kind::Name),
        _ => Kind::Name,
    }
}

// How many bytes from the first on may stand there.
fn length_of<F: Fn(u8) -> bool>(rest: &[u8], may_stand: F) -> usize
    requires { F.IsAlwaysCallable may_stand }
    ensures { SpansBy (F.post may_stand) rest.now result }
{
    for (i, b) in rest.iter().enumerate() {
        if !may_stand(*b) {
            return i;
        }
    }
    rest.len()
}

// The name or word at i.
fn name_at(text: &[u8], i: usize) -> Option<Token>
    requires { (i < length text.now) × (is_letter (get_or text.now i 0) ≡ true) }
    ensures { seen_in result ≡ seen (name_at (span in_name (drop i text.now))) }
{
    let n = length_of(&text[i..], in_name);
    if LONGEST_NAME < n {
        return None;
    }
    match word_kind(&text[i..i + n]) {
        Kind::Name => Some(Token {
            kind: Kind::Name,
            value: n as u32,
            size: n,
        }),
        kind => Some(Token {
            kind,
            value: 0,
            size: n,
        }),
    }
}

// What a digit counts.
fn digit_value(b: u8) -> u64
    requires { is_digit b ≡ true }
    ensures { (result ≡ b - 48) × (result < 10) }
{
    (b as u64) - 48
}

// The number that the first digits mean and how many they are, if it is not too large; no byte is read past the one that makes it too large.
fn number_of(rest: &[u8]) -> Option<(u32, usize)>
    ensures { MeansNumber (decimal 0 (span is_digit rest.now)) (length (span is_digit rest.now)) result }
{
    let mut v: u64 = 0;
    for (n, b) in rest.iter().enumerate() {
        if !is_digit(*b) {
            return Some((v as u32, n));
        }
        v = v * 10 + digit_value(*b);
        if LARGEST_NUMBER < v {
            return None;
        }
    }
    Some((v as u32, rest.len()))
}

// The number at i: no letter, digit or `_` follows, and no zero leads.
fn number_at(text: &[u8], i: usize) -> Option<Token>
    requires { (i < length text.now) × (is_digit (get_or text.now i 0) ≡ true) }
    ensures { seen_in result ≡ seen (number_at (span is_digit (drop i text.now)) (drop (length (span is_digit (drop i text.now))) (drop i text.now))) }
{
    let (value, n) = number_of(&text[i..])?;
    if in_name(item_or(text, i + n, 0)) {
        return None;
    }
    if text[i] == b'0' && 1 < n {
        return None;
    }
    Some(Token {
        kind: Kind::Number,
        value,
        size: n,
    })
}

// The kind of a sign of two bytes if c is its second, else that of the shorter sign.
fn paired(c: u8, second: u8, longer: Kind, shorter: Kind) -> Kind
    ensures { number_of_kind result ≡ pick (eqb second c) (number_of_kind longer) (number_of_kind shorter) }
{
    if c == second { longer } else { shorter }
}

// The kind of a sign of two bytes if c is its second; the first alone is no sign.
fn doubled(c: u8, second: u8, longer: Kind) -> Option<Kind>
    ensures { number_in result ≡ pick (eqb second c) (number_of_kind longer) 0 }
{
    if c == second { Some(longer) } else { None }
}

// The kind of the sign that the bytes b and c begin with, if they begin with one: the longer one if both would do.
fn sign_kind(b: u8, c: u8) -> Option<Kind>
    ensures { number_in result ≡ sign_in (b ∷ c ∷ []) }
{
    match b {
        b'=' => Some(paired(c, b'=', Kind::DoubleEquals, Kind::Equals)),
        b'!' => Some(paired(c, b'=', Kind::BangEquals, Kind::Bang)),
        b'<' => Some(paired(c, b'=', Kind::LessEquals, Kind::Less)),
        b'>' => Some(paired(c, b'=', Kind::GreaterEquals, Kind::Greater)),
        b'&' => doubled(c, b'&', Kind::DoubleAmpersand),
        b'|' => doubled(c, b'|', Kind::DoubleBar),
        b'+' => Some(Kind::Plus),
        b'-' => Some(Kind::Minus),
        b'*' => Some(Kind::Star),
        b'/' => Some(Kind::Slash),
        b'%' => Some(Kind::Percent),
        b'(' => Some(Kind::LeftParen),
        b')' => Some(Kind::RightParen),
        b'{' => Some(Kind::LeftBrace),
        b'}' => Some(Kind::RightBrace),
        b'[' => Some(Kind::LeftBracket),
        b']' => Some(Kind::RightBracket),
        b':' => Some(Kind::Colon),
        b';' => Some(Kind::Semicolon),
        b',' => Some(Kind::Comma),
        _ => None,
    }
}

// A sign's number of bytes: those of the kinds below that of `+` have two.
fn sign_size(kind: Kind) -> usize
    ensures { result ≡ pick (ltb (number_of_kind kind) 9) 2 1 }
{
    if (kind as u32) < (Kind::Plus as u32) {
        2
    } else {
        1
    }
}

// The sign at i.
fn sign_at(text: &[u8], i: usize) -> Option<Token>
    requires { i < length text.now }
    ensures { seen_in result ≡ seen (as_sign (find (λ s. begins s (drop i text.now)) signs)) }
{
    let kind = sign_kind(text[i], item_or(text, i + 1, 0))?;
    Some(Token {
        kind,
        value: 0,
        size: sign_size(kind),
    })
}

// The token at i, which is no blank and begins no comment.
fn token_at(text: &[u8], i: usize) -> Option<Token>
    requires { i < length text.now }
    ensures { seen_in result ≡ seen (token_at (drop i text.now)) }
{
    let b = text[i];
    if is_letter(b) {
        return name_at(text, i);
    }
    if is_digit(b) {
        return number_at(text, i);
    }
    sign_at(text, i)
}

// Writes the three words of a token, into room that the caller lends, since no part has a heap.
fn put(room: &mut [u32], at: usize, kind: Kind, place: u32, value: u32)
    requires { at + 3 ≤ length room.old }
    ensures { room.new ≡ sets room.old at (number_of_kind kind ∷ place ∷ value ∷ []) }
{
    room[at] = u32::from(kind);
    room[at + 1] = place;
    room[at + 2] = value;
}

// The tokens of any text, into the room's start; or where the text is unreadable; or that the room is shorter than TOKEN_ROOM words. A token says
// how many bytes it has, so that no range has the places.
pub fn tokens(text: &[u8], room: &mut [u32]) -> Result<usize, Unread>
    ensures { Told text.now room.old result room.new }
{
    if room.len() < TOKEN_ROOM {
        return Err(Unread::NoRoom);
    }
    if LONGEST_TEXT < text.len() {
        return Err(Unread::Unreadable(LONGEST_TEXT));
    }
    let mut n: usize = 0;
    let mut i: usize = 0;
    while i < text.len() {
        let b = text[i];
        if is_blank(b) {
            i += 1;
        } else if b == b'#' {
            i += 1 + length_of(&text[i + 1..], in_comment);
        } else {
            let Some(token) = token_at(text, i) else {
                return Err(Unread::Unreadable(i));
            };
            put(room, TOKEN_WORDS * n, token.kind, i as u32, token.value);
            n += 1;
            i += token.size;
        }
    }
    Ok(n)
}
