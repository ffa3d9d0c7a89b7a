// The index values of a contract, and the returns between them.
ghost use Rattle.std.specs.Prelude.{◌≡◌, ◌+◌, ◌*◌, ◌≤◌, if◌then◌else◌, Ok, Err};
ghost use Rattle.faults.specs.declared.Refusal.TheVariants.{NotAdmitted};
ghost use Rattle.std.specs.Option.{option_map};
ghost use Rattle.contract.specs.Formulas.{admits as admits_after, keep as keep_in};
ghost use Rattle.contract.specs.Sound.{unpaired, value_or_one};

use crate::figures::IndexRecord;
use faults::Refusal;
use prices::returns::Return;
use quantities::{IndexValue, Within};

impl IndexRecord {
    // The record with a day's value, unless that value is not admitted after the last.
    #[tactic(auto, unfolding(crate::specs::Formulas::square_between))]
    pub(crate) fn keep(self, value: Option<IndexValue>) -> Result<IndexRecord, Refusal>
        requires last { (1 ≤ value_or_one self.last) × (value_or_one self.last ≤ 9999999) }
        requires few { self.returns ≤ 1023 }
        requires small { self.sum_of_squares ≤ 83000000000 * self.returns }
        ensures answer { result ≡ (if admits_after self.last (option_map (λ v. v.value) value) then Ok (keep_in (option_map (λ v. v.value) value) self) else Err NotAdmitted) }
        ensures small { elim result [ Ok x ↦ x.sum_of_squares ≤ 83000000000 * x.returns | Err e ↦ Unit {0} ] }
        ensures count { elim result [ Ok x ↦ x.returns + unpaired x.last ≤ self.returns + unpaired self.last + 1 | Err e ↦ Unit {0} ] }
        ensures last { elim result [ Ok x ↦ (1 ≤ value_or_one x.last) × (value_or_one x.last ≤ 9999999) | Err e ↦ Unit {0} ] }
    {
        let Some(value) = value else {
            return Ok(self);
        };
        let Some(last) = self.last else {
            return Ok(IndexRecord {
                last: Some(value.value),
                ..self
            });
        };
        let step = Return::between(Within { value: last }, value).ok_or(Refusal::NotAdmitted)?;
        Ok(IndexRecord {
            last: Some(value.value),
            returns: self.returns + 1,
            sum_of_squares: self.sum_of_squares + step.squared(),
        })
    }
}
