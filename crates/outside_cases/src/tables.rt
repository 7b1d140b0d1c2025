//! The tables of names: files, URLs and renderers.
use crate::{files, renderers, urls};
use case_lines::word;
use file_table::FileTable;
use renderer_table::Renderers;
use std::alloc::Global;
use url_store::UrlStore;

/// A table of each kind, as the lines before left it.
#[derive(Drop)]
pub struct Tables {
    files: FileTable,
    urls: UrlStore,
    renderers: Renderers,
}

impl Tables {
    /// Empty tables.
    pub fn new(alloc: Global) -> anyhow::Result<Tables> {
        Ok(Tables {
            files: FileTable::new(alloc)?,
            urls: UrlStore::new(alloc)?,
            renderers: Renderers::new(alloc)?,
        })
    }

    /// Makes the call of a line, and shows its answer.
    pub fn call(&mut self, rt: &HostRuntime, line: &str) -> anyhow::Result<()> {
        match word(line, 0) {
            "files" => files::call(rt, &mut self.files, line),
            "urls" => urls::call(rt, &mut self.urls, line),
            _ => renderers::call(rt, &mut self.renderers, line),
        }
    }
}
