//! What a course that keeps all that it has to promises of its run. A law is the contract of a function without arguments.

ghost use Rattle.std.specs.Prelude.{ℕ, Bool, List, Option};
ghost use Rattle.backing_store.specs.Calls.{Call};
ghost use Rattle.io_edges.specs.declared.plans.PlanLine.{PlanLine};
ghost use Rattle.run_course.specs.declared.course.Course.{Course};
ghost use Rattle.run_course.specs.inner.Kept.{IsKept, view_of};
ghost use Rattle.run_course.specs.inner.Views.{Holds};

/// What a course keeps gives all that is so of every book: whatever the store gave, the rules that no page's bytes decide and the store's
/// calls; and where no record was forged, all eleven rules, and that each record that was put has the flat bytes of its page.
pub fn courses_keep_their_promises()
    ensures { (c : Course) (told : Option (List Call)) (plans : List PlanLine) (spare : ℕ) (out_of_memory : Bool)
        → IsKept c told plans spare → Holds (view_of c told plans out_of_memory) }
{}
