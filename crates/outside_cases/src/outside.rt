//! One of each of what lies outside of the store.
use crate::disks::Disks;
use crate::tables::Tables;
use crate::{objects, slots};
use case_lines::{call_path, word};
use data_handles::{FileHandle, MemoryHandle};

/// What the lines speak of, each as the lines before left it.
#[derive(Drop)]
pub struct Outside {
    tables: Tables,
    disks: Disks,
    object: MemoryHandle,
    opened: Option<FileHandle>,
}

impl Outside {
    /// Everything empty.
    pub fn new(rt: &HostRuntime) -> anyhow::Result<Outside> {
        Ok(Outside {
            tables: Tables::new(rt.alloc())?,
            disks: Disks::new(rt)?,
            object: objects::new_object(rt.alloc(), "", "-")?,
            opened: None,
        })
    }

    /// Makes the call of a line, and shows its answer.
    pub fn call(&mut self, rt: &HostRuntime, line: &str) -> anyhow::Result<()> {
        match word(line, 0) {
            "files" | "urls" | "renderers" => self.tables.call(rt, line),
            "memory" | "folder" => self.disks.call(rt, line),
            "path" => Ok(call_path(rt, line)?),
            "object" => objects::call_memory(rt, &mut self.object, line),
            "opened" => Ok(objects::call_file(rt, &mut self.opened, line)?),
            "slots" => slots::call(rt, line),
            _ => Ok(println!(rt; "{line}")?),
        }
    }
}
