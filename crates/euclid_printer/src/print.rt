//! What is printed the same wherever it stands, and lists of it.

ghost use Rattle.std.specs.Prelude.{◌≡◌, ◌++◌, OnOk, codes, string_bytes};
ghost use Rattle.std.specs.List.{flat_map};
ghost use Rattle.euclid_printer.specs.Printing.{joined_text, behind_text};

use key_table::NoMemory;

/// A part of a program that is printed the same wherever it stands.
pub(crate) trait Print {
    ghost use Rattle.std.specs.Prelude.{ℕ, List};

    // its text
    ghost text: { Self → List ℕ };

    /// Appends the text.
    fn print(&self, out: &mut String) -> Result<(), NoMemory>
        ensures { OnOk result (string_bytes out.new ≡ string_bytes out.old ++ text self.now) };
}

/// The items, one behind the other.
pub(crate) fn put_all<T: Print>(out: &mut String, items: &[T]) -> Result<(), NoMemory>
    ensures { OnOk result (string_bytes out.new ≡ string_bytes out.old ++ flat_map T.text items.now) }
{
    for item in items {
        item.print(out)?;
    }
    Ok(())
}

/// Items with a comma between two of them, in brackets.
pub(crate) fn put_list<T: Print>(
    out: &mut String,
    opening: &str,
    items: &[T],
    closing: &str,
) -> Result<(), NoMemory>
    ensures { OnOk result (string_bytes out.new ≡ string_bytes out.old ++ (opening.now ++ (joined_text (codes ", ") T.text items.now ++ closing.now))) }
{
    out.push_str(opening)?;
    put_joined(out, ", ", items)?;
    out.push_str(closing)?;
    Ok(())
}

/// Items with a separator between two of them.
pub(crate) fn put_joined<T: Print>(
    out: &mut String,
    separator: &str,
    items: &[T],
) -> Result<(), NoMemory>
    ensures { OnOk result (string_bytes out.new ≡ string_bytes out.old ++ joined_text separator.now T.text items.now) }
{
    match items {
        [first, others @ ..] => {
            first.print(out)?;
            put_behind(out, separator, others)
        }
        [] => Ok(()),
    }
}

// Items, each with a separator before it.
fn put_behind<T: Print>(out: &mut String, separator: &str, items: &[T]) -> Result<(), NoMemory>
    ensures { OnOk result (string_bytes out.new ≡ string_bytes out.old ++ behind_text separator.now T.text items.now) }
{
    for item in items {
        out.push_str(separator)?;
        item.print(out)?;
    }
    Ok(())
}
