use blob_words::{NoMemory, PageNo};
use std::alloc::Global;
use std::fmt::Write;

/// The most digits of a page's number, and the bar before them.
const NAME_LEN: usize = 11;

// A folder and the room for the path of each page in it.
#[derive(Debug, Drop)]
pub struct Place {
    pub folder: String,
    pub path: String,
    // Whether the folder was made.
    pub is_made: bool,
}

impl Place {
    pub fn new(alloc: Global, folder: &str) -> Result<Place, NoMemory> {
        let path = String::with_capacity(alloc, folder.len().saturating_add(NAME_LEN))?;
        let folder = String::from_str(alloc, folder)?;
        Ok(Place {
            folder,
            path,
            is_made: false,
        })
    }

    // The path of a page; its name is its number in decimal.
    pub fn path_of(&mut self, page: PageNo) -> &str {
        self.path.clear();
        let _ = write!(self.path, "{}/{}", self.folder, page.0);
        self.path.as_str()
    }
}
