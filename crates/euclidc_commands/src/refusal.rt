ghost use Rattle.std.specs.Prelude.{◌≡◌, string_bytes, IfOk};
ghost use Rattle.euclidc_commands.specs.declared.status.Verdict.TheVariants.{Refused, TooLong};
ghost use Rattle.euclidc_commands.specs.Refusals.{refusal, rule_place, too_long};
ghost use Rattle.euclidc_commands.specs.Stages.{HaltsWith};

use crate::answer::Halt;
use crate::role::Role;
use crate::status::Verdict;
use key_table::{NoMemory, Text};
use std::alloc::{AllocError, Global};

/// The answer that refuses a file: one line with what is refused, the code of its fault and the place.
pub fn refused(alloc: Global, what: &str, code: u8, place: &str) -> Halt
    ensures { HaltsWith result (refusal what.now code place.now) Refused }
{
    Halt::with(refused_line(alloc, what, code, place), Verdict::Refused)
}

/// The answer where a file is longer than its limit: one line with the file's role.
pub fn too_long(alloc: Global, role: Role) -> Halt
    ensures { HaltsWith result (too_long role) TooLong }
{
    Halt::with(too_long_line(alloc, role), Verdict::TooLong)
}

/// The number of a rule, or `default`, as refusals name it.
#[tactic(auto, unfolding(crate::specs::Refusals::rule_place))]
pub fn rule_place(alloc: Global, rule: Option<u32>) -> Result<String, AllocError>
    ensures { IfOk result (λ s. string_bytes s ≡ rule_place rule) }
{
    match rule {
        Some(rule) => rule.to_string(alloc),
        None => String::from_str(alloc, "default"),
    }
}

fn refused_line(alloc: Global, what: &str, code: u8, place: &str) -> Result<Text, NoMemory>
    ensures { IfOk result (λ t. t ≡ refusal what.now code place.now) }
{
    let text = format!(in alloc; "refused {what} {code} {place}\n")?;
    Ok(Text::from(text))
}

fn too_long_line(alloc: Global, role: Role) -> Result<Text, NoMemory>
    ensures { IfOk result (λ t. t ≡ too_long role) }
{
    let word = role.word();
    let text = format!(in alloc; "toolong {word}\n")?;
    Ok(Text::from(text))
}
