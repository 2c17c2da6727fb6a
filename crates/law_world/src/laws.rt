//! Laws of every course. Each function here is a law: its contract states it, and its body does nothing.

ghost use Rattle.std.specs.Prelude.{List, Bool.false, IsTrue};
ghost use Rattle.rs_sched.specs.declared.event.Event.{Event};
ghost use Rattle.rs_sched.specs.Schedule.{IsValid};
ghost use Rattle.rs_course.specs.Calm.{is_calm};
ghost use Rattle.rs_site.specs.Course.{course};
ghost use Rattle.rs_course.specs.Played.{are_accepted};
ghost use Rattle.rs_site.specs.Report.{report_of};
ghost use Rattle.law_world.specs.Answered.{EachAskIsAnswered, HaveTransactions};
ghost use Rattle.law_world.specs.Explains.{Explains};

/// The report of the course of each valid and accepted list of events explains them.
pub fn explained()
    ensures { (events : List Event) → IsValid events → IsTrue (are_accepted false events)
        → Explains events (report_of (course events)) }
{}

/// By the report of the course of each valid, accepted and calm list of fewer than 2 ^ 64 - 1 events each ask is answered.
pub fn answered()
    ensures { (events : List Event) → IsValid events → IsTrue (are_accepted false events) → IsTrue (is_calm false events)
        → HaveTransactions events → EachAskIsAnswered events (report_of (course events)) }
{}

/// Each accepted list of events is calm, so far.
pub fn played_is_calm()
    ensures { (events : List Event) → IsTrue (are_accepted false events) → IsTrue (is_calm false events) }
{}
