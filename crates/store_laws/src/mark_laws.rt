//! The marks of entries: with what their blobs are to break.
ghost use Rattle.store_laws.specs.Marking.{MarksStand};

/// Behind a line's own answers the marks agree with what the blobs break as: nobody is marked where
/// nobody may come to break, and where a renderer died those that it left short are.
pub fn marks_stand()
    ensures { MarksStand }
{}
