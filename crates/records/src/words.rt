// The words of a record of any width. Nothing is refused.
ghost use Rattle.std.specs.Prelude.{◌≡◌};
ghost use Rattle.records.specs.Words.{word_of};

// Word `k` of the record at a place, and 0 past its width or past the last whole record.
pub fn word(words: &[u64], width: usize, place: usize, k: usize) -> u64
    ensures { result ≡ word_of words.now width place k }
{
    if width <= k {
        return 0;
    }
    if words.len() / width <= place {
        return 0;
    }
    words[place * width + k]
}
