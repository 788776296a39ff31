//! What flat memory replies.

use sgx_rules::entries::Answer;
use sgx_rules::refusals::Refusal;

/// What flat memory replies to an instruction: it was done, with its answer, or refused.
#[derive(Clone, Copy, Debug, PartialEq, Eq)]
pub enum FlatReply {
    Did(Answer),
    Refused(Refusal),
}
