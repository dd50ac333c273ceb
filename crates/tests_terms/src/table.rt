/// The rows of a table, one a line.
pub(crate) fn rows(table: &str) -> std::str::Lines<'_> {
    table.lines()
}

/// What stands before the first mark and behind it.
pub(crate) fn cut<'a>(text: &'a str, mark: &str) -> (&'a str, &'a str) {
    match text.split_once(mark) {
        Some((before, behind)) => (before, behind),
        None => (text, ""),
    }
}
