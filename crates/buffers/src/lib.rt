// Words of any one kind put into a lent buffer from a place on. Nothing is refused: a word that would stand past the buffer's end is lost.
#![tactic(auto)]

ghost use Rattle.std.specs.Prelude.{◌≡◌, set};
ghost use Rattle.std.proofs.lemmas.List.Edits.{sets};

pub fn put<T: Copy>(out: &mut [T], at: usize, word: T)
    ensures { out.new ≡ set out.old at word }
{
    // An index: of a slice behind `get_mut` the library does not say how it ends.
    if at < out.len() {
        out[at] = word;
    }
}

pub fn put_words<T: Copy>(out: &mut [T], at: usize, words: &[T])
    ensures { out.new ≡ sets out.old at words.now }
{
    let from = at.min(out.len());
    let count = words.len().min(out.len() - from);
    for i in 0..count {
        out[from + i] = words[i];
    }
}
