ghost use Rattle.std.specs.Prelude.{length, codes, decimal, OnOk};
ghost use Rattle.euclid_ast.specs.Meaning.{IsWithin};
ghost use Rattle.euclidc_commands.specs.declared.status.Verdict.TheVariants.{Refused};
ghost use Rattle.euclidc_commands.specs.Refusals.{refusal};
ghost use Rattle.euclidc_commands.specs.Targets.{target_in};
ghost use Rattle.euclidc_commands.specs.Stages.{Judges, HaltsWith};

use crate::answer::Halt;
use crate::refusal::refused;
use euclid_ast::{Choice, Program};
use std::alloc::Global;

const NO_SUCH_RULE: u8 = 1;

/// Judges whether a target is one of a program's: the default, or one of its rules.
#[tactic(auto, unfolding(crate::specs::Targets::target_in))]
pub fn judge_target(alloc: Global, program: &Program, target: Choice) -> Result<(), Halt>
    ensures target { Judges (λ u. u) (target_in (length program.now.rules) target) result }
    ensures within { OnOk result (IsWithin target (length program.now.rules)) }
{
    match target {
        Choice::Rule(rule) => {
            if (rule as usize) < program.rules.as_slice().len() {
                Ok(())
            } else {
                Err(refused_rule(alloc, rule))
            }
        }
        Choice::Default => Ok(()),
    }
}

// The refusal of a number that is none of a rule.
fn refused_rule(alloc: Global, rule: u32) -> Halt
    ensures { HaltsWith result (refusal (codes "target") 1 (decimal rule)) Refused }
{
    match rule.to_string(alloc) {
        Ok(number) => refused(alloc, "target", NO_SUCH_RULE, number.as_str()),
        Err(_) => Halt::NoMemory,
    }
}
