//! What threads were answered, and when.
ghost use Rattle.std.specs.Prelude.{◌≡◌, IfOk, map};

use front_search::Span;
use its_history::Text;
use its_types::Listed;
use std::alloc::{AllocError, Global};

/// A call that returned, with what it was answered.
#[derive(Debug, Drop)]
pub struct Answered {
    /// When it began and returned.
    pub span: Span,
    /// The call, ` -> ` and the reply.
    pub text: Text,
}

/// What is known of a leg of one phase.
#[derive(Debug, Drop)]
pub struct Told {
    /// Each thread's calls, in its order.
    pub threads: Listed<Listed<Answered>>,
    /// What is pending at each virtual processor at the end.
    pub pending: Listed<Text>,
}

/// When the calls of each thread began and returned.
pub fn spans(alloc: Global, threads: &[Listed<Answered>]) -> Result<Vec<Listed<Span>>, AllocError>
    ensures { IfOk result (λ all. all.items ≡ map (λ calls. map (λ a. a.span) calls) threads.now) }
{
    let mut all = Vec::new(alloc);
    for calls in threads {
        let spans = spans_of(alloc, calls.as_slice())?;
        all.push(spans)?;
    }
    Ok(all)
}

fn spans_of(alloc: Global, calls: &[Answered]) -> Result<Listed<Span>, AllocError>
    ensures { IfOk result (λ spans. spans ≡ map (λ a. a.span) calls.now) }
{
    let mut spans = Vec::new(alloc);
    for call in calls {
        spans.push(call.span)?;
    }
    Ok(Listed::from_vec(spans))
}
