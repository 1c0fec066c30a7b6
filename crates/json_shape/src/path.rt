ghost use Rattle.std.specs.Prelude.{◌≡◌, ◌++◌, [], IfOk, OnOk, string_bytes};
ghost use Rattle.std.specs.Char.{encode_utf8};
ghost use Rattle.key_table.specs.Answers.{StopsWith};
ghost use Rattle.json_shape.specs.PathLaws.{PathLaw};
ghost use Rattle.json_shape.specs.Paths.{escaped, name_step, item_step, fault};

use crate::ShapeError;
use key_table::{NoMemory, Stop, Text};
use std::alloc::{AllocError, Global};
use std::marker::Model;

/// A place in JSON, as a JSON Pointer (RFC 6901). A path is its last step from the path before it, which it borrows, and the
/// pointer's text is made only where it is asked for.
#[cycle(path)]
#[derive(Drop)]
pub struct Path<'a> {
    last: Step<'a>,
}

// The start of a path, or a step from the path before it.
#[cycle(path)]
#[derive(Drop)]
enum Step<'a> {
    Root(Global),
    Name(&'a Path<'a>, &'a str),
    Item(&'a Path<'a>, usize),
}

impl<'a> Model for Path<'a> {
    ghost use Rattle.std.specs.Prelude.{List, ℕ, length};

    ghost Value = { List ℕ };

    ghost use Rattle.json_shape.specs.PathViews.{pointer_of};

    ghost view = { λ p. pointer_of p.last };

    ghost size = { length };

    ghost use Rattle.json_shape.specs.Shorter.{before_is_shorter};

    ghost size_decreases = { λ p h. before_is_shorter p.last };
}

impl<'a> Path<'a> {
    /// The root, whose pointer is empty.
    pub fn root(alloc: Global) -> Path<'a>
        ensures { result ≡ [] }
    {
        Path {
            last: Step::Root(alloc),
        }
    }

    /// The field with this name of the object here. In the pointer `~` is written `~0` and `/` is written `~1`, as RFC 6901
    /// says.
    pub fn name(&'a self, name: &'a str) -> Result<Path<'a>, NoMemory>
        ensures { IfOk result (λ p. p ≡ name_step self.now name.now) }
    {
        Ok(Path {
            last: Step::Name(self, name),
        })
    }

    /// The item with this number of the array here, the first being 0.
    pub fn item(&'a self, number: usize) -> Result<Path<'a>, NoMemory>
        ensures { IfOk result (λ p. p ≡ item_step self.now number) }
    {
        Ok(Path {
            last: Step::Item(self, number),
        })
    }

    /// The pointer.
    pub fn pointer(&self) -> Result<Text, NoMemory>
        ensures { IfOk result (λ t. t ≡ self.now) }
    {
        Ok(Text::from(self.text()?))
    }

    /// The fault with this code here.
    pub fn stop(&self, code: u8) -> Stop<ShapeError>
        ensures { StopsWith result (fault code self.now) }
    {
        match self.pointer() {
            Ok(path) => Stop::Fault(ShapeError { code, path }),
            Err(NoMemory) => Stop::Memory,
        }
    }

    // The pointer's text.
    fn text(&self) -> Result<String, AllocError>
        ensures { IfOk result (λ s. string_bytes s ≡ self.now) }
    {
        match &self.last {
            Step::Root(alloc) => Ok(String::new(*alloc)),
            Step::Name(before, name) => {
                let mut text = before.text()?;
                push_name(&mut text, name)?;
                Ok(text)
            }
            Step::Item(before, number) => {
                let mut text = before.text()?;
                push_item(&mut text, *number)?;
                Ok(text)
            }
        }
    }
}

// Adds the step of a name.
fn push_name(text: &mut String, name: &str) -> Result<(), AllocError>
    ensures { OnOk result (string_bytes text.new ≡ name_step (string_bytes text.old) name.now) }
{
    text.push('/')?;
    for c in name.chars() {
        push_escaped(text, c)?;
    }
    Ok(())
}

// Adds the step of a number.
fn push_item(text: &mut String, number: usize) -> Result<(), AllocError>
    ensures { OnOk result (string_bytes text.new ≡ item_step (string_bytes text.old) number) }
{
    let digits = number.to_string(*text.allocator())?;
    text.push('/')?;
    text.push_str(digits.as_str())
}

// Adds a character of a name, as a pointer has it.
#[tactic(auto, using(crate::proofs::Escapes::escaped_tilde, crate::proofs::Escapes::escaped_slash, crate::proofs::Escapes::escaped_other))]
fn push_escaped(text: &mut String, c: char) -> Result<(), AllocError>
    ensures { OnOk result (string_bytes text.new ≡ string_bytes text.old ++ escaped (encode_utf8 c)) }
{
    match c {
        '~' => text.push_str("~0"),
        '/' => text.push_str("~1"),
        _ => text.push(c),
    }
}

/// From an object the step of a name leads to the field with that name, and from an array the step of a number to the item
/// with that number, as RFC 6901 reads a pointer.
pub fn path_law()
    ensures { PathLaw }
{}
