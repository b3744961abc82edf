ghost use Rattle.store_compact.specs.Worked.{IsRewritten};

/// The records of a start, a request and two files with three bodies are rewritten with one body and its digests, as it was worked out
/// without the definitions.
pub fn worked_rewriting()
    ensures { IsRewritten }
{}
