// The area of packed rows: the ones of their words, counted word by word (02, Point 2).
ghost use Rattle.std.specs.Prelude.{◌≡◌};
ghost use Rattle.lists.specs.Lists.{occurrences};
ghost use Rattle.model.specs.Words.{unpacked_words};
ghost use Rattle.words.specs.Frame.{Clean};

use word_ones::ones_of;

// The number of object pixels.
pub fn area(width: usize, height: usize, words: &[u64]) -> usize
    requires { Clean width height words.now }
    ensures { result ≡ occurrences 1 (unpacked_words width height words.now) }
{
    words.iter().map(|word| ones_of(*word)).sum()
}
