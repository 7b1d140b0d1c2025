ghost use Rattle.blob_store.specs.Arriving.{Arrive};

/// A law about items that came: they are added, and hold ranges and pieces. It does nothing.
pub fn arrive()
    ensures { Arrive }
{}
