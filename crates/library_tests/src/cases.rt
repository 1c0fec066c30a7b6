//! Tables of cases as text.

use std::alloc::{AllocError, Global};

/// The text of a template, in which `|N*ITEM|` stands for so many items. A `#` in an item is the number of the items that
/// follow.
pub(crate) fn expanded(alloc: Global, template: &str) -> Result<String, AllocError> {
    let mut text = String::new(alloc);
    for part in template.split('|') {
        match part.split_once('*') {
            Some((count, item)) => push_items(alloc, &mut text, count.parse().unwrap_or(0), item)?,
            None => text.push_str(part)?,
        }
    }
    Ok(text)
}

fn push_items(alloc: Global, text: &mut String, count: u32, item: &str) -> Result<(), AllocError> {
    for number in (0..count).rev() {
        let number = number.to_string(alloc)?;
        text.push_str(item.replace(alloc, "#", number.as_str())?.as_str())?;
    }
    Ok(())
}
