// Words that choose what stands behind them.

ghost use Rattle.std.specs.Prelude.{◌≡◌, map};
ghost use Rattle.text_forms.specs.Form.{entry, is_one_of};

/// What the table has for the word: the first entry that has it.
pub fn find<K: Copy>(table: &[(&[u8], K)], word: &[u8]) -> Option<K>
    ensures { result ≡ entry (map (λ e. (e.0.now, e.1)) table.now) word.now }
{
    for entry in table {
        if entry.0 == word {
            return Some(entry.1);
        }
    }
    None
}

/// Whether the word is one of these.
pub fn is_one_of(words: &[&[u8]], word: &[u8]) -> bool
    ensures { result ≡ is_one_of (map (λ w. w.now) words.now) word.now }
{
    words.contains(&word)
}
