ghost use Rattle.std.specs.Prelude.{◌≡◌, ◌≤◌, map, length, true, IfOk};
ghost use Rattle.std.specs.List.{list_all};
ghost use Rattle.serde_json.specs.View.{view};
ghost use Rattle.key_table.specs.Answers.{Answers};
ghost use Rattle.json_shape.specs.Counted as counted;
ghost use Rattle.json_shape.specs.Each.{each};

use crate::{Path, ShapeError};
use key_table::{Seq, Stop};
use serde_json::Value;
use std::alloc::Global;

/// What reads one kind of item. `reads` says what the JSON at a path is, or its first fault, and `fits` which items it ever
/// gives.
pub trait Reader {
    ghost use Rattle.std.specs.Prelude.{Bool, List, ℕ, Result};
    ghost use Rattle.serde_json.specs.Data.{Data};
    ghost use Rattle.json_shape.specs.declared.error.ShapeError.{ShapeError};

    type Item: Drop;

    ghost reads: { Self → List ℕ → Data → Result Self.Item ShapeError };

    ghost fits: { Self → Self.Item → Bool };

    /// The item that the JSON at the path is. It has exactly the faults that `reads` has.
    fn read(&self, alloc: Global, node: &Value, path: &Path) -> Result<Self::Item, Stop<ShapeError>>
        ensures item { Answers (λ x. x) result (reads self.now path.now (view node.now)) }
        ensures fits { IfOk result (λ x. fits self.now x ≡ true) };
}

/// What the reader makes of each item in turn of the array at the path. The place of an item is its number in the array,
/// the first being 0, and the fault is the reader's at the first item that has one.
pub fn each<R: Reader>(
    alloc: Global,
    reader: &R,
    nodes: &[Value],
    path: &Path,
) -> Result<Seq<R::Item>, Stop<ShapeError>>
    ensures items { Answers (λ s. s) result (each (R.reads reader.now) path.now 0 (map view nodes.now)) }
    ensures fit { IfOk result (λ s. list_all (R.fits reader.now) s ≡ true) }
    ensures few { IfOk result (λ s. length s ≤ length nodes.now) }
{
    let mut items = Seq::with_capacity(alloc, nodes.len())?;
    for (i, node) in nodes.iter().enumerate() {
        let at = path.item(i)?;
        items.push(reader.read(alloc, node, &at)?)?;
    }
    Ok(items)
}

/// What reads one kind of item, and counts on from what was counted before it. `reads` says what the JSON at a path is and
/// how much is counted then, or its first fault, and `fits` which items it ever gives.
pub trait CountingReader {
    ghost use Rattle.std.specs.Prelude.{Bool, List, ℕ};
    ghost use Rattle.serde_json.specs.Data.{Data};
    ghost use Rattle.json_shape.specs.Counted.{Reading};

    type Item: Drop;

    type Counts;

    ghost reads: { Self → List ℕ → Data → Reading Self.Counts Self.Item };

    ghost fits: { Self → Self.Item → Bool };

    /// The item that the JSON at the path is, and in `counts` how much is counted then. It has exactly the faults that
    /// `reads` has.
    fn read(
        &self,
        alloc: Global,
        node: &Value,
        path: &Path,
        counts: &mut Self::Counts,
    ) -> Result<Self::Item, Stop<ShapeError>>
        ensures item { Answers (λ x. (x, counts.new)) result (reads self.now path.now (view node.now) counts.old) }
        ensures fits { IfOk result (λ x. fits self.now x ≡ true) };
}

/// What the reader makes of each item in turn of the array at the path, and in `counts` how much is counted then. The place
/// of an item is its number in the array, the first being 0, and the fault is the reader's at the first item that has one.
pub fn each_counted<R: CountingReader>(
    alloc: Global,
    reader: &R,
    nodes: &[Value],
    path: &Path,
    counts: &mut R::Counts,
) -> Result<Seq<R::Item>, Stop<ShapeError>>
    ensures items { Answers (λ s. (s, counts.new)) result (counted.each (R.reads reader.now) path.now 0 (map view nodes.now) counts.old) }
    ensures fit { IfOk result (λ s. list_all (R.fits reader.now) s ≡ true) }
    ensures few { IfOk result (λ s. length s ≤ length nodes.now) }
{
    let mut items = Seq::with_capacity(alloc, nodes.len())?;
    for (i, node) in nodes.iter().enumerate() {
        let at = path.item(i)?;
        items.push(reader.read(alloc, node, &at, counts)?)?;
    }
    Ok(items)
}
