//! What an audit found of the objects, by its lines: `# UUID ID SIZE FINDING ..`.

/// What the audit found of an object.
#[derive(Clone, Copy, Debug, PartialEq, Eq)]
pub enum Finding {
    /// A certificate of it was made and checked.
    Whole,
    /// Some blocks are bad. Their numbers stand behind.
    BadBlocks,
    /// It is not the object that the directory names.
    Damaged,
}

/// What the line of an object says.
pub fn finding_of(line: &str) -> Finding {
    match line.split(' ').nth(4) {
        Some("cert") => Finding::Whole,
        Some("damaged") => Finding::Damaged,
        _ => Finding::BadBlocks,
    }
}

/// The line of the object of an application, by its UUID and its identifier in hexadecimal digits.
pub fn line_of<'a>(lines: &'a str, app: &str, id: &str) -> Option<&'a str> {
    for line in lines.lines() {
        let mut words = line.split(' ');
        if words.nth(1) == Some(app) && words.next() == Some(id) {
            return Some(line);
        }
    }
    None
}
