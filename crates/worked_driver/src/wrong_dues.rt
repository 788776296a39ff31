//! Entries that are wrong where a SECS is due to go out, or has to be back before a page: each breaks the rule that is named, and no rule
//! before it.

ghost use Rattle.std.specs.Prelude.{◌≡◌, true};
ghost use Rattle.sgx_types.specs.Pages.{page_at, secs_page, va_page};
ghost use Rattle.sgx_rules.specs.declared.entries.BusWhy.TheVariants as reasons;
ghost use Rattle.sgx_rules.specs.declared.entries.Look.TheVariants as looks;
ghost use Rattle.history_rules.specs.declared.rules.Rule.TheVariants as rules;
ghost use Rattle.worked_driver.specs.inner.Faults.{breaks_first, first_of};
ghost use Rattle.worked_driver.specs.inner.SecsTrace.{look_at, secs_job, secs_trace, starts_back, told_lost};

/// The last page of the first enclave has gone out.
pub fn the_secs_is_looked_at_next()
    ensures passed { breaks_first rules.Age secs_job (first_of 21 secs_trace) (look_at (page_at 2 0) looks.Taken) ≡ true }
    ensures held { breaks_first rules.Age secs_job (first_of 21 secs_trace) (look_at (secs_page 1) looks.Held) ≡ true }
    ensures young { breaks_first rules.Age secs_job (first_of 21 secs_trace) (look_at (secs_page 1) looks.Young) ≡ true }
    ensures other { breaks_first rules.Age secs_job (first_of 21 secs_trace) (look_at (secs_page 2) looks.Taken) ≡ true }
    ensures array { breaks_first rules.Age secs_job (first_of 21 secs_trace) (look_at (va_page 0) looks.Taken) ≡ true }
{}

/// .. and then it goes out at once.
pub fn the_secs_goes_out_next()
    ensures { breaks_first rules.Age secs_job (first_of 22 secs_trace) (look_at (page_at 2 0) looks.Taken) ≡ true }
{}

/// A page of the second enclave is left.
pub fn no_secs_is_due_while_a_page_is_left()
    ensures before { breaks_first rules.Age secs_job (first_of 17 secs_trace) (look_at (secs_page 1) looks.Taken) ≡ true }
    ensures behind { breaks_first rules.Age secs_job (first_of 40 secs_trace) (look_at (secs_page 2) looks.Taken) ≡ true }
{}

/// The processor needs the TCS page of the first enclave, whose SECS is outside.
pub fn the_secs_comes_first()
    ensures page { breaks_first rules.Script secs_job (first_of 24 secs_trace) (starts_back 1 (page_at 1 0) 3 1) ≡ true }
    ensures told { breaks_first rules.Script secs_job (first_of 24 secs_trace) (told_lost (page_at 1 0) reasons.GetFailed) ≡ true }
    ensures slot { breaks_first rules.Script secs_job (first_of 24 secs_trace) (starts_back 1 (secs_page 1) 1 3) ≡ true }
    ensures unasked { breaks_first rules.Script secs_job (first_of 24 secs_trace) (told_lost (secs_page 1) reasons.Slot) ≡ true }
{}
