//! The form of answers.

ghost use Rattle.std.specs.Prelude.{◌≡◌};
ghost use Rattle.audit_machine.specs.inner.Forms.{has_form, is_cssa, is_fault, is_hash, is_plain, is_value, is_version};

use sgx_rules::entries::{Action, Answer};

/// Whether an answer has the form that the row of an instruction gives: of one that its row alone decides, which EPA, the ends of starts
/// and the start of ELDU are not.
pub fn has_form(action: Action, answer: Answer) -> bool
    ensures { result ≡ has_form action answer }
{
    match action {
        Action::Epa { .. } => false,
        Action::Create { .. } => is_plain(answer),
        Action::Add { .. } => is_plain(answer),
        Action::Extend { .. } => is_plain(answer),
        Action::Init { .. } => is_hash(answer),
        Action::Enter { .. } => is_cssa(answer),
        Action::Resume { .. } => is_value(answer),
        Action::Exit => is_plain(answer),
        Action::Aex { .. } => is_plain(answer),
        Action::Fill { .. } => is_plain(answer),
        Action::Load { .. } => is_value(answer),
        Action::Store { .. } => is_plain(answer),
        Action::Xadd { .. } => is_value(answer),
        Action::Set { .. } => is_plain(answer),
        Action::Plus { .. } => is_value(answer),
        Action::Pf { .. } => is_fault(answer),
        Action::OutLoad { .. } => is_value(answer),
        Action::OutStore { .. } => is_plain(answer),
        Action::Block { .. } => is_plain(answer),
        Action::Track { .. } => is_plain(answer),
        Action::EwbStart { .. } => is_version(answer),
        Action::Ewb { .. } => false,
        Action::EldStart { .. } => false,
        Action::Eld { .. } => false,
    }
}

fn is_plain(answer: Answer) -> bool
    ensures { result ≡ is_plain answer }
{
    matches!(answer, Answer::Plain)
}

fn is_value(answer: Answer) -> bool
    ensures { result ≡ is_value answer }
{
    matches!(answer, Answer::Value(_))
}

fn is_cssa(answer: Answer) -> bool
    ensures { result ≡ is_cssa answer }
{
    matches!(answer, Answer::Cssa(_))
}

fn is_hash(answer: Answer) -> bool
    ensures { result ≡ is_hash answer }
{
    matches!(answer, Answer::Hash(_))
}

fn is_version(answer: Answer) -> bool
    ensures { result ≡ is_version answer }
{
    matches!(answer, Answer::Version(_))
}

fn is_fault(answer: Answer) -> bool
    ensures { result ≡ is_fault answer }
{
    matches!(answer, Answer::Pf(_))
}
