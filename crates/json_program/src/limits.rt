// How many bytes a text has at most, how many items a list of values or of a selection, how many rules, statements and
// comparisons a program, how deep statements nest, and how large a split and a rate are.

pub(crate) const MOST_BYTES: usize = 255;

pub(crate) const MOST_ITEMS: usize = 4_096;

pub(crate) const MOST_RULES: usize = 256;

pub(crate) const MOST_STATEMENTS: u32 = 16_384;

pub(crate) const MOST_COMPARISONS: u32 = 16_384;

pub(crate) const MOST_LEVELS: u8 = 32;

pub(crate) const MOST_SPLIT: u16 = 255;

pub(crate) const MOST_POINTS: u16 = 10_000;
