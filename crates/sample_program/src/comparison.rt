ghost use Rattle.std.specs.Prelude.{◌≡◌, ◌<◌, [], ◌∷◌, slice_get, Some, IfOk};
ghost use Rattle.sample_program.specs.Comparisons.{comparison, comparisons};

use euclid_ast::{Comparison, ValueForm};
use key_table::{NoMemory, Op, Seq, Text};
use std::alloc::Global;

/// The comparison with the number of a draw below 8. It is refused for want of memory alone.
#[tactic(auto, unfolding(crate::specs::Comparisons::comparisons))]
pub(crate) fn numbered_comparison(alloc: Global, number: u64) -> Result<Comparison, NoMemory>
    requires { number < 8 }
    ensures { IfOk result (λ c. slice_get comparisons number ≡ Some c) }
{
    match number {
        0 => compared(alloc, "payment_method", Op::Equal, variant(alloc, "card")?),
        1 => compared(alloc, "currency", Op::Equal, variant(alloc, "USD")?),
        2 => compared(alloc, "currency", Op::NotEqual, variant(alloc, "EUR")?),
        3 => compared(alloc, "amount", Op::Greater, ValueForm::Number(10_000)),
        4 => compared(alloc, "amount", Op::Less, ValueForm::Number(50_000)),
        5 => compared(
            alloc,
            "card_network",
            Op::Equal,
            either(alloc, "Visa", "Mastercard")?,
        ),
        6 => compared(alloc, "billing_country", Op::Equal, variant(alloc, "US")?),
        _ => compared(
            alloc,
            "capture_method",
            Op::Equal,
            variant(alloc, "manual")?,
        ),
    }
}

fn compared(alloc: Global, lhs: &str, op: Op, value: ValueForm) -> Result<Comparison, NoMemory>
    ensures { IfOk result (λ c. c ≡ comparison lhs.now op value) }
{
    Ok(Comparison {
        lhs: Text::from_str(alloc, lhs)?,
        op,
        value,
    })
}

fn variant(alloc: Global, word: &str) -> Result<ValueForm, NoMemory>
    ensures { IfOk result (λ v. v ≡ ValueForm.Variant word.now) }
{
    Ok(ValueForm::Variant(Text::from_str(alloc, word)?))
}

// One of two variants.
fn either(alloc: Global, first: &str, second: &str) -> Result<ValueForm, NoMemory>
    ensures { IfOk result (λ v. v ≡ ValueForm.Variants (first.now ∷ second.now ∷ [])) }
{
    let mut words = Seq::with_capacity(alloc, 2)?;
    words.push(Text::from_str(alloc, first)?)?;
    words.push(Text::from_str(alloc, second)?)?;
    Ok(ValueForm::Variants(words))
}
