// The words of the command line.

ghost use Rattle.std.specs.Prelude.{◌≡◌, [], ◌∷◌, map, string_bytes};
ghost use Rattle.std.specs.Option.{option_map};
ghost use Rattle.vplanc.specs.Words.{command_of, is_plain};

/// The file that the words name, if they give a command.
pub fn file_named<'a>(words: &'a [String]) -> Option<&'a str>
    ensures { option_map (λ file. file.now) result ≡ command_of (map string_bytes words.now) }
{
    match words {
        [word] => plain(word.as_str()),
        _ => None,
    }
}

fn plain<'a>(word: &'a str) -> Option<&'a str>
    ensures { option_map (λ file. file.now) result ≡ command_of (word.now ∷ []) }
{
    if is_plain_word(word.as_bytes()) {
        Some(word)
    } else {
        None
    }
}

fn is_plain_word(word: &[u8]) -> bool
    ensures { result ≡ is_plain word.now }
{
    match word {
        [] => false,
        [b'-', ..] => false,
        _ => true,
    }
}
