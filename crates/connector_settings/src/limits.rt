// How many connectors settings have at most, how many type entries over all connectors, how many items a list of methods,
// of type entries or of words, and how many bytes a name and an id.

pub(crate) const MOST_CONNECTORS: usize = 256;

pub(crate) const MOST_ENTRIES: usize = 4_096;

pub(crate) const MOST_ITEMS: usize = 4_096;

pub(crate) const MOST_BYTES: usize = 255;
