//! Places in a line: the protocol counts UTF-16 code units, a reader counts characters.

/// How many UTF-16 code units a character has.
fn units_of(c: char) -> usize {
    if u32::from(c) < 0x1_0000 { 1 } else { 2 }
}

/// How many UTF-16 code units the first characters of a line have, of which there are `characters`, or fewer if the
/// line ends.
///
/// Source: the Language Server Protocol 3.17, Position.
pub fn units_before(line: &str, characters: usize) -> usize {
    let mut units = 0usize;
    for c in line.chars().take(characters) {
        units = units.saturating_add(units_of(c));
    }
    units
}

/// How many characters of a line are wholly before a place, which is given in UTF-16 code units from 0.
///
/// Source: the Language Server Protocol 3.17, Position.
pub fn characters_before(line: &str, units: usize) -> usize {
    let mut left = units;
    let mut characters = 0usize;
    for c in line.chars() {
        if left < units_of(c) {
            return characters;
        }
        left = left.saturating_sub(units_of(c));
        characters = characters.saturating_add(1);
    }
    characters
}
