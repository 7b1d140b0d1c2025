//! Lines that change renderers, URLs, files and readers, and the roots of blobs.
ghost use Rattle.store_laws.specs.Apart.{KeysDiffer};
ghost use Rattle.store_laws.specs.BehindLaws.{LinesCanDrop};
ghost use Rattle.store_laws.specs.OpeningLaws.{OpeningsStand};
ghost use Rattle.store_laws.specs.Rooted.{RootsAgree};
ghost use Rattle.store_laws.specs.TableLaws.{TableLinesStand};
ghost use Rattle.store_laws.specs.UrlForms.{UrlFormsAgree};

/// In a legal transcript the texts of the URLs differ, and the numbers of the open readers.
pub fn keys_differ()
    ensures { KeysDiffer }
{}

/// The parts stand for the history with a line that passes a handle on, makes or revokes a URL,
/// records or forgets a file, closes a reader, lets a renderer die, or is the last.
pub fn table_lines_stand()
    ensures { TableLinesStand }
{}

/// The parts stand for the history with a line that opens a reader on a blob, by its name or by
/// a URL that leads to it.
pub fn openings_stand()
    ensures { OpeningsStand }
{}

/// A text has the form of a blob URL of an origin exactly where it names a blob.
pub fn url_forms_agree()
    ensures { UrlFormsAgree }
{}

/// Where entries have as many roots as there are handles, URLs and readers of their blobs, an entry
/// has one exactly where its blob is rooted in the history.
pub fn roots_agree()
    ensures { RootsAgree }
{}

/// So right behind a line's own answers the entries agree with the history, and what nobody holds
/// can be dropped.
pub fn lines_can_drop()
    ensures { LinesCanDrop }
{}
