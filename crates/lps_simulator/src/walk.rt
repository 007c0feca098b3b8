//! Walks: picks by the words of a sequence.

ghost use Rattle.std.specs.Prelude.{◌≡◌};
ghost use Rattle.lps_simulator.specs.Walks.{chooser_of, next_word, word_of, IsChooser, IsPick};

/// A walk, which keeps a chooser and a word. Its words are those of a linear congruential sequence.
#[derive(Drop)]
pub struct Walk<C: Fn(u64, usize) -> Option<usize>> {
    chooser: C,
    word: u64,
}

impl<C: Fn(u64, usize) -> Option<usize>> Walk<C> {
    /// A walk with a chooser, which begins with a word. For each word and n above 0 the chooser answers a number below n, and for 0
    /// none.
    pub fn new(chooser: C, seed: u64) -> Walk<C>
        requires { IsChooser (C.pre chooser) (C.post chooser) }
        ensures chooser { chooser_of result ≡ chooser }
        ensures word { word_of result ≡ seed }
    {
        Walk {
            chooser,
            word: seed,
        }
    }

    /// Goes on to the next word, and answers what the chooser does for it and n: a number below n, and none exactly where n is 0.
    pub fn pick(&mut self, n: usize) -> Option<usize>
        requires { IsChooser (C.pre (chooser_of self.old)) (C.post (chooser_of self.old)) }
        ensures chooser { chooser_of self.new ≡ chooser_of self.old }
        ensures word { word_of self.new ≡ next_word (word_of self.old) }
        ensures chosen { C.post (chooser_of self.old) (next_word (word_of self.old)) n result }
        ensures within { IsPick n result }
    {
        self.word = word_after(self.word);
        (self.chooser)(self.word, n)
    }
}

/// The word after a word.
fn word_after(word: u64) -> u64
    ensures { result ≡ next_word word }
{
    word.wrapping_mul(6_364_136_223_846_793_005)
        .wrapping_add(1_442_695_040_888_963_407)
}
