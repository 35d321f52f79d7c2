//! Lengths, and which characters are not shown.
use std::ops::{Add, Sub};

/// A length or a place, in pixels. What would be below 0 is 0, and what would be too large is the largest.
#[derive(Clone, Copy)]
pub(crate) struct Px(pub u32);

impl Px {
    /// That many times the length.
    pub fn times(self, many: u32) -> Px {
        Px(self.0.saturating_mul(many))
    }

    /// Half of the length.
    pub fn half(self) -> Px {
        Px(self.0 / 2)
    }

    /// The greater one.
    pub fn max(self, other: Px) -> Px {
        Px(self.0.max(other.0))
    }

    /// Whether it is greater.
    pub fn is_above(self, other: Px) -> bool {
        self.0 > other.0
    }

    /// The middle between two places.
    pub fn middle(self, other: Px) -> Px {
        (self + other).half()
    }
}

impl Add for Px {
    type Output = Px;

    ghost can_add = { λ _ _. Unit {0} };

    fn add(self, other: Px) -> Px {
        Px(self.0.saturating_add(other.0))
    }
}

impl Sub for Px {
    type Output = Px;

    ghost can_sub = { λ _ _. Unit {0} };

    fn sub(self, other: Px) -> Px {
        Px(self.0.saturating_sub(other.0))
    }
}

/// A number of things that are drawn, of which there are far fewer than a million.
pub(crate) fn count(many: usize) -> u32 {
    many.min(1_000_000) as u32
}

/// About how wide a text is that has that many characters, at a size of the font.
pub(crate) fn width_of(characters: usize, size: u32) -> Px {
    let many = characters.min(10_000) as u32;
    Px(many.saturating_mul(size).saturating_mul(6) / 10)
}

/// A character that a document shows in place of one that has no picture, or that turns the direction of a text.
pub(crate) const REPLACEMENT: char = '\u{fffd}';

/// Whether a character has no picture of its own, or turns the direction of the text around it.
pub(crate) fn is_unseen(c: char) -> bool {
    let code = c as u32;
    (code < 0x20 && c != '\n')
        || (0x7f <= code && code < 0xa0)
        || code == 0x061c
        || (0x200b <= code && code < 0x2010)
        || (0x2028 <= code && code < 0x2030)
        || (0x2060 <= code && code < 0x2070)
        || code == 0xfeff
        || 0xfff0 <= code && code < 0xfffd
        || code == 0xfffe
        || code == 0xffff
}
