//! Traces of which all eleven rules are evaluated: a whole history, and traces that fail at their last entry and nowhere before.

ghost use Rattle.std.specs.Prelude.{◌∷◌};
ghost use Rattle.sgx_types.specs.declared.names.Actor.TheVariants.{Builder, Reclaimer};
ghost use Rattle.history_rules.specs.declared.rules.Rule.TheVariants as rules;
ghost use Rattle.history_rules.specs.Histories.{FailsFirst, History};
ghost use Rattle.worked_driver.specs.inner.KickTrace.{kick_job, kick_trace};
ghost use Rattle.worked_driver.specs.inner.SpentTrace.{spent_job, spent_trace};
ghost use Rattle.worked_driver.specs.inner.Faults.{first_of};
ghost use Rattle.worked_driver.specs.inner.Words.{block, init, kick};

pub fn a_run_that_ends_at_the_last_epoch_is_a_history()
    ensures { History spent_job spent_trace }
{}

pub fn each_place_fails_first_by_its_rule()
    ensures script { FailsFirst kick_job (init Builder ∷ first_of 4 kick_trace) 4 rules.Script }
    ensures refusal { FailsFirst kick_job (block Reclaimer 2 ∷ first_of 11 kick_trace) 11 rules.Refusal }
    ensures age { FailsFirst kick_job (block Reclaimer 2 ∷ first_of 8 kick_trace) 8 rules.Age }
    ensures kick { FailsFirst kick_job (kick 0 ∷ first_of 12 kick_trace) 12 rules.Kick }
{}
