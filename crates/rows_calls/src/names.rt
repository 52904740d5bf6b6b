// A table of calls, a line to each: the name, the letters of its arguments, those of its answer and its number, with a space behind each but the last. A small letter stands for a number, a capital for a list.

// The line of a name.
pub(crate) fn line_of<'a>(table: &'a str, name: &[u8]) -> Option<&'a str> {
    table
        .lines()
        .find(|line| word_at(line, 0).as_bytes() == name)
}

// The word of a line at a place.
pub(crate) fn word_at(line: &str, place: usize) -> &str {
    line.split(' ').nth(place).unwrap_or("")
}
