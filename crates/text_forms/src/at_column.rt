//! The word at fault of a line, by its column.
ghost use Rattle.std.specs.Prelude.{◌≡◌};
ghost use Rattle.text_forms.specs.AtColumn.{blamed_at};

use super::mistake::Mistake;
use super::words::{Blame, cut, judge};

/// What is wrong with the word of this line that begins at this column, from 0: what no word has, or else this. Where the
/// line has no such column, a word is missing right behind it, and this is wrong.
pub fn blame_at(text: &[u8], column: usize, mistake: Mistake) -> Blame
    ensures { result ≡ blamed_at text.now column mistake }
{
    if column >= text.len() {
        return Blame {
            column: text.len(),
            mistake,
        };
    }
    let (word, _) = cut(&text[column..]);
    Blame {
        column,
        mistake: judge(word, mistake),
    }
}
