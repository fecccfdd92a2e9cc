//! What is known of guest memory and its copy.
ghost use Rattle.dirty_log.specs.Copies as laws;

/// Outside dirty pages the copy has the memory's bytes, at first, after a write whose pages are
/// marked, and after a copy, which leaves all of them.
pub fn copies_agree()
    ensures untouched { laws.UntouchedIsTracked }
    ensures write { laws.WritesKeepTracked }
    ensures copy { laws.CopiesKeepTracked }
    ensures whole { laws.CopyHasAllBytes }
    ensures same { laws.CopyIsMemory }
{}
