ghost use Rattle.transport_plan.specs.Spans.{SpansCover};

/// A law about the segments of a plan: they cover each own byte once. It does nothing.
pub fn spans_cover()
    ensures { SpansCover }
{}
