/// What a session may have only so many of.
#[derive(Clone, Copy, Debug, PartialEq, Eq)]
pub enum Counted {
    Renderers,
    Blobs,
    Segments,
    Pieces,
    Views,
    Readers,
    Urls,
    Files,
}
