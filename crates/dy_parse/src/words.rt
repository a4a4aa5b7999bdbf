ghost use Rattle.std.specs.Prelude.{◌≡◌};
ghost use Rattle.std.specs.List.{list_any};
ghost use Rattle.std.specs.Str.{bytes_eq};
ghost use Rattle.dy_grammar.specs.Words as words;

/// The words of two letters that are no names.
const OF_TWO: [&[u8]; 6] = [b"on", b"as", b"of", b"ad", b"pk", b"vk"];

/// The words of three letters that are no names.
const OF_THREE: [&[u8]; 12] = [
    b"new", b"let", b"use", b"any", b"key", b"pke", b"sig", b"mac", b"kdf", b"msg", b"fst", b"snd",
];

/// The words of four letters that are no names.
const OF_FOUR: [&[u8]; 25] = [
    b"case", b"args", b"recv", b"send", b"find", b"open", b"with", b"same", b"name", b"upto",
    b"join", b"meet", b"next", b"here", b"self", b"aead", b"pair", b"penc", b"sign", b"hash",
    b"plan", b"cert", b"pdec", b"adec", b"body",
];

/// The words of five letters that are no names.
const OF_FIVE: [&[u8]; 15] = [
    b"usage", b"event", b"after", b"state", b"knows", b"store", b"split", b"using", b"popen",
    b"check", b"prior", b"nonce", b"round", b"field", b"forge",
];

/// The words of six letters that are no names.
const OF_SIX: [&[u8]; 7] = [
    b"dystar", b"unless", b"secret", b"verify", b"public", b"nobody", b"inject",
];

/// The words of seven letters that are no names.
const OF_SEVEN: [&[u8]; 5] = [b"lasting", b"handler", b"certify", b"session", b"corrupt"];

/// The words of eight letters that are no names.
const OF_EIGHT: [&[u8]; 1] = [b"requires"];

/// Whether the word is one of these.
fn is_among(words: &[&[u8]], word: &[u8]) -> bool
    ensures { result ≡ list_any (λ other. bytes_eq other.now word.now) words.now }
{
    words.iter().any(|other| *other == word)
}

/// Whether the word is reserved, and so no name.
pub(crate) fn is_reserved(word: &[u8]) -> bool
    ensures { result ≡ words.is_reserved word.now }
{
    match word.len() {
        2 => is_among(&OF_TWO, word),
        3 => is_among(&OF_THREE, word),
        4 => is_among(&OF_FOUR, word),
        5 => is_among(&OF_FIVE, word),
        6 => is_among(&OF_SIX, word),
        7 => is_among(&OF_SEVEN, word),
        8 => is_among(&OF_EIGHT, word),
        _ => false,
    }
}
