// The words of items.

ghost use Rattle.std.specs.Prelude.{◌≡◌};
ghost use Rattle.text_forms.specs.Form.{entry};
ghost use Rattle.ir_types.specs.Words.{item_words};

use ir_types::ItemWord;
use text_forms::find;

static ITEMS: [(&[u8], ItemWord); 5] = [
    (b"source_filename", ItemWord::SourceFilename),
    (b"target", ItemWord::Target),
    (b"declare", ItemWord::Declare),
    (b"define", ItemWord::Define),
    (b"attributes", ItemWord::Attributes),
];

/// What the word begins, of the items that begin with a word.
#[tactic(auto, unfolding(ir_types::specs::Words::item_words))]
pub fn item_word(word: &[u8]) -> Option<ItemWord>
    ensures { result ≡ entry item_words word.now }
{
    find(&ITEMS, word)
}
