// How many items a list has at most, how many rules, statements and comparisons a program, how many levels of statements
// there are at most below one of the outermost level, and how large a split and a rate are.

pub(crate) const MOST_ITEMS: usize = 4_096;

pub(crate) const MOST_RULES: usize = 256;

pub(crate) const MOST_STATEMENTS: usize = 16_384;

pub(crate) const MOST_COMPARISONS: usize = 16_384;

pub(crate) const MOST_LEVELS_BELOW: usize = 31;

pub(crate) const MOST_SPLIT: u16 = 255;

pub(crate) const MOST_POINTS: u16 = 10_000;
